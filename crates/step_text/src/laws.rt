//! What holds of every schedule.

ghost use Rattle.std.specs.Prelude.{◌≡◌, ℕ, List, Ok};
ghost use Rattle.step_text.specs.declared.steps.Steps.{Steps};
ghost use Rattle.step_text.specs.StepForm.{AreSteps};
ghost use Rattle.step_text.specs.StepReading.{steps_of};

/// What a text spells is a well formed schedule.
pub fn steps_are_formed()
    ensures { (text : List ℕ) (steps : Steps) → steps_of text ≡ Ok steps → AreSteps steps }
{}
