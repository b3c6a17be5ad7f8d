//! The plain model's commands on walks, by the calls of this crate. Each law is the contract of a
//! function that does nothing.
ghost use Rattle.collection_walks.specs.Given.{CurrentIsCall, DisposeIsCall, NextIsCall, ResetIsCall, WalkIsCall};

/// What the plain model's commands on walks give is what the calls of `Walks` answer and leave.
pub fn commands_are_calls()
    ensures walk { WalkIsCall }
    ensures next { NextIsCall }
    ensures current { CurrentIsCall }
    ensures reset { ResetIsCall }
    ensures dispose { DisposeIsCall }
{}
