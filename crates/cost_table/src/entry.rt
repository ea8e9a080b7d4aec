//! A function's greatest cost and greatest depth, by its measure: its row of the table (bounds of work and stack).

ghost use Rattle.std.specs.Prelude.{◌≡◌, ◌+◌, suc};
ghost use Rattle.program.specs.declared.annotation.Budget.{Budget};
ghost use Rattle.cost_table.specs.Cost.{cost_below};
ghost use Rattle.cost_table.specs.Depth.{flat_depth, self_calls_depth};
ghost use Rattle.cost_table.specs.Tables.{as_u64, as_u128, above_self_call, bounded, climbed, within};

use program::Budget;

/// What the table keeps of a function.
#[derive(Drop)]
pub struct FunctionCost {
    /// The greatest measure.
    pub bound: u64,
    pub budget: Budget,
    /// How deep a call reaches that makes no self call.
    pub flat: u64,
    /// The frames under the deepest self call; 0 where there is none.
    pub rise: u64,
}

/// A depth above a self call.
fn above_self_call(rise: u64, depth: u64) -> u64
    ensures { result ≡ as_u64 (above_self_call rise depth) }
{
    if rise == 0 {
        0
    } else {
        rise.saturating_add(depth)
    }
}

/// What a call of this measure costs at most, summed level by level. With two self calls and more it doubles with the measure, so that it soon is past all
/// bounds, where the sum ends.
fn climbing_cost(calls: u128, instructions: u128, measure: u64) -> u128
    ensures { (budget : Budget) → budget.self_calls ≡ calls → budget.instructions ≡ instructions → result ≡ as_u128 (cost_below budget (suc measure)) }
{
    let mut cost = instructions;
    for _step in 0..measure {
        if cost == u128::MAX {
            return cost;
        }
        cost = instructions.saturating_add(calls.saturating_mul(cost));
    }
    cost
}

/// What a call of this measure costs at most.
pub fn cost_of(budget: &Budget, measure: u64) -> u128
    ensures { result ≡ as_u128 (cost_below budget.now (suc measure)) }
{
    let calls = u128::from(budget.self_calls);
    let instructions = u128::from(budget.instructions);
    if calls <= 1 {
        return instructions.saturating_mul(1 + calls * u128::from(measure));
    }
    if instructions == 0 {
        return 0;
    }
    climbing_cost(calls, instructions, measure)
}

/// A number of 64 bits; the greatest stands for all beyond.
fn narrowed(number: u128) -> u64
    ensures { result ≡ as_u64 number }
{
    u64::try_from(number).unwrap_or(u64::MAX)
}

impl FunctionCost {
    /// What a call of this measure costs at most; none beyond the bound.
    pub fn cost(&self, measure: u64) -> Option<u64>
        ensures { result ≡ within self.now.bound measure (cost_below self.now.budget (suc measure)) }
    {
        if measure <= self.bound {
            Some(narrowed(cost_of(&self.budget, measure)))
        } else {
            None
        }
    }

    /// How deep a call of this measure reaches at most.
    fn climbed(&self, measure: u64) -> u64
        ensures { result ≡ climbed self.now measure }
    {
        let mut depth = self.flat;
        for _step in 0..measure {
            depth = self.flat.max(above_self_call(self.rise, depth));
        }
        depth
    }

    /// How deep a call reaches at most.
    pub fn whole_depth(&self) -> u64
        ensures { result ≡ climbed self.now self.now.bound }
    {
        self.climbed(self.bound)
    }

    /// How deep a call of this measure reaches at most; none beyond the bound.
    pub fn depth(&self, measure: u64) -> Option<u64>
        ensures { result ≡ bounded self.now.bound measure (climbed self.now measure) }
    {
        if measure <= self.bound {
            Some(self.climbed(measure))
        } else {
            None
        }
    }
}
