//! The text of a plan, put to a sink.

ghost use Rattle.std.specs.Prelude.{flat_map};
ghost use Rattle.mr_io.specs.Counts.{HasCause};
ghost use Rattle.mr_io.specs.Taking.{Puts};
ghost use Rattle.mr_plan.specs.Plans.{AreUpward};
ghost use Rattle.mr_plan.specs.PlanText.{plan_text, recipe_text, line_of};

use crate::lines::{head_line, recipe_line, set_line};
use crate::plans::Plan;
use crate::recipes::Recipe;
use mr_io::{Failed, Sink, put_all};

impl Plan {
    /// Puts the text of the plan. After `Failed` the sink took a front of it that is not all. Takes no memory.
    pub fn print<K: Sink>(&self, out: &mut K) -> Result<(), Failed>
        ensures puts { Puts (K.held out.old) (K.held out.new) result (plan_text self.now) }
        ensures cause { HasCause (K.faults out.old) (K.faults out.new) result }
    {
        put_all(out, head_line(self.kind()))?;
        put_all(out, &set_line(self.set()))?;
        put_recipes(out, self.recipes())?;
        put_all(out, b"end\n")
    }
}

/// Puts the lines of the recipes.
fn put_recipes<K: Sink>(out: &mut K, recipes: &[Recipe]) -> Result<(), Failed>
    requires { AreUpward 0 recipes.now }
    ensures puts { Puts (K.held out.old) (K.held out.new) result
        (flat_map (λ r. line_of (recipe_text r)) recipes.now) }
    ensures cause { HasCause (K.faults out.old) (K.faults out.new) result }
{
    for recipe in recipes {
        put_all(out, &recipe_line(recipe))?;
    }
    Ok(())
}
