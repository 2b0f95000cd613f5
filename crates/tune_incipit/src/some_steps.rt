// Steps of which there is one at least.
ghost use Rattle.std.specs.Prelude.{◌≡◌, ◌<◌, ◌↔◌, length, IsSome, IfSome};

use crate::step_lists::Steps;

/// Steps of which there is one at least: what a query of notes looks for. No steps would be a front
/// of every incipit.
#[derive(Clone, Copy, Debug, PartialEq, Eq)]
pub struct SomeSteps {
    pub steps: Steps,
    pub ghost some: { 0 < length steps },
}

impl SomeSteps {
    /// These steps, unless there are none.
    pub fn new(steps: Steps) -> Option<SomeSteps>
        ensures value { IfSome result (λ some. some.steps ≡ steps) }
        ensures some { IsSome result ↔ (0 < length steps) }
    {
        if steps.is_empty() {
            None
        } else {
            Some(SomeSteps { steps })
        }
    }
}
