// What holds of the definitions alone: each law is a function with nothing to do, whose clause is the law.
ghost use Rattle.std.specs.Prelude.{List};
ghost use Rattle.outside.specs.FileMaps.{FileMap};
ghost use Rattle.verve_tool.specs.Causes.{Cause, OneCause};
ghost use Rattle.verve_tool.specs.Commands.{NothingStops};

use device_model::laws::one_outcome;
use tal_checker::laws::one_refusal;
use tal_image::laws::one_meaning;

/// Told files decide one thing of a list of causes: one of them is the first that holds, or none holds.
pub fn one_cause()
    ensures { (files : FileMap) (causes : List Cause) → OneCause files causes }
{}

/// A command that did its work over its files had no cause to stop.
pub fn nothing_stops()
    ensures { NothingStops }
{
    one_meaning();
    one_refusal();
    one_outcome();
}
