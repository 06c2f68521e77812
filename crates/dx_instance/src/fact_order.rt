// Facts in order.
ghost use Rattle.dx_base.specs.Members.{◌≈◌};
ghost use Rattle.dx_model.specs.Values.{FactsAscend};

use dx_model::Fact;

/// These facts in order, each once.
pub(crate) fn facts_in_order(facts: Vec<Fact>) -> Vec<Fact>
    ensures ascend { FactsAscend result.items }
    ensures same { result.items ≈ facts.items }
{
    let mut sorted = facts;
    sorted.sort_unstable();
    sorted.dedup();
    sorted
}
