// Parameters, in order.
ghost use Rattle.std.specs.Prelude.{List, ◌≡◌, ℕ, ◌-◌};
ghost use Rattle.language.specs.Tree.{Spec};
ghost use Rattle.language.specs.DeclaredNames.{Table};
ghost use Rattle.declarations.specs.Expressions.{Lengths};
ghost use Rattle.declarations.specs.Constants.{Parameters, ParametersGiven, ConstantsTold};

use crate::evaluate::{Names, number_of};
use language::limits;
use name_values::sorts;
use node::{MAX_NODES, Refusal};
use operands::Source;

// The entries that declare the parameters, in order.
#[derive(Clone, Copy)]
pub struct Chosen {
    pub places: [u16; limits::MAX_NAMES],
    pub count: usize,
}

// The entry before one.
pub fn before(k: usize) -> usize
    ensures { result ≡ k - 1 }
{
    k.saturating_sub(1)
}

// The parameters are worked out one after the other: what is noted then, or the first refusal.
pub fn parameters(
    source: &Source,
    chosen: Chosen,
    names: Names,
    memory: &mut [u32],
    table: &mut [u32; MAX_NODES],
    entries: usize,
) -> Result<Names, Refusal>
    requires { ParametersGiven source.now.text.now source.now.work.now source.now.refs.now chosen.places chosen.count names.sorts names.numbers memory.old table.old entries }
    ensures { ((found : List ℕ) (n : ℕ) (x : Spec) (d : Table) → Parameters source.now.text.now source.now.work.now source.now.refs.now found entries n chosen.places chosen.count
        names.sorts names.numbers x d → ConstantsTold source.now.text.now source.now.work.now x d result)
        × Lengths table.old table.new result }
{
    let places = chosen.places;
    let count = chosen.count;
    let mut sorts = names.sorts;
    let mut numbers = names.numbers;
    for j in 0..count {
        let k = usize::from(places[j]);
        let r = usize::from(source.refs[k]);
        let n = number_of(
            source,
            Names { sorts, numbers },
            memory,
            table,
            entries,
            before(k),
        )?;
        sorts[r] = sorts::NUMBER;
        numbers[r] = n;
    }
    Ok(Names { sorts, numbers })
}
