//! Worked examples of the plain definitions.
#![tactic(auto)]

ghost use Rattle.std.specs.List.{AllByRecursion};
ghost use Rattle.worked_examples.specs.Examples.{Holds};
ghost use Rattle.worked_examples.specs.ListExamples.{list_examples};
ghost use Rattle.worked_examples.specs.SetExamples.{set_examples};
ghost use Rattle.worked_examples.specs.MapExamples.{map_examples};
ghost use Rattle.worked_examples.specs.BuilderExamples.{builder_examples};
ghost use Rattle.worked_examples.specs.FrozenExamples.{frozen_examples};
ghost use Rattle.worked_examples.specs.WalkExamples.{walk_examples};
ghost use Rattle.worked_examples.specs.LimitExamples.{LimitExamples};
ghost use Rattle.worked_examples.specs.ReportExamples.{IsTold, report_examples};
ghost use Rattle.worked_examples.specs.LawfulExamples.{LawfulExamples};
ghost use Rattle.worked_examples.specs.GeneratorExamples.{GeneratorExamples};
ghost use Rattle.worked_examples.specs.RegistryExamples.{RegistryExample};

/// A law on the definitions: each example holds of them. It does nothing when it runs.
pub fn examples_hold()
    ensures lists { AllByRecursion Holds list_examples }
    ensures sets { AllByRecursion Holds set_examples }
    ensures maps { AllByRecursion Holds map_examples }
    ensures builders { AllByRecursion Holds builder_examples }
    ensures frozen { AllByRecursion Holds frozen_examples }
    ensures walks { AllByRecursion Holds walk_examples }
    ensures reports { AllByRecursion IsTold report_examples }
    ensures lawful { LawfulExamples }
    ensures limits { LimitExamples }
    ensures generated { GeneratorExamples }
    ensures registry { RegistryExample }
{}
