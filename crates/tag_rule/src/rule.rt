//! The rule of the table, and what its steps tell.

use crate::view::View;
use atomic_table::{Join, Play, Split, TableRule};
use std::marker::{Brand, PhantomData};
use tag_model::Shape;

/// The words are what all parts say, and these are a safe word state.
pub struct Law;

impl TableRule<(), View, Shape> for Law {
    ghost use Rattle.tag_rule.specs.Rule.{Ruled};
    ghost use Rattle.tag_rule.specs.Fresh.{first_view};

    ghost holds = { Ruled };

    ghost first = { first_view };
}

/// What the parts are after a step on a word, by the number that was found there, and what the step tells.
pub trait After {
    ghost use Rattle.std.specs.Prelude.{ℕ};
    ghost use Rattle.tag_rule.specs.declared.view.View.{View};

    ghost after: { ℕ → View };

    ghost told: { ℕ → Type 0 };
}

/// The same of a step that changes no word.
pub trait Change {
    ghost use Rattle.tag_rule.specs.declared.view.View.{View};

    ghost to: { View };

    ghost told: { Type 0 };
}

/// How the parts of a seat are cut in two.
pub trait Halves {
    ghost use Rattle.tag_rule.specs.declared.view.View.{View};

    ghost kept: { View };

    ghost gone: { View };
}

/// How the parts that two seats have together are divided anew, and what that tells.
pub trait Exchange {
    ghost use Rattle.tag_rule.specs.declared.view.View.{View};

    ghost kept: { View };

    ghost gone: { View };

    ghost told: { Type 0 };
}

impl After for Brand {
    ghost use Rattle.std.specs.Prelude.{[]};
    ghost use Rattle.tag_rule.specs.Rule.{view_of};

    ghost after = { λ n. view_of [] };

    ghost told = { λ n. Unit {0} };
}

impl Change for Brand {
    ghost use Rattle.std.specs.Prelude.{[]};
    ghost use Rattle.tag_rule.specs.Rule.{view_of};

    ghost to = { view_of [] };

    ghost told = { Unit {0} };
}

impl Halves for Brand {
    ghost use Rattle.std.specs.Prelude.{[]};
    ghost use Rattle.tag_rule.specs.Rule.{view_of};

    ghost kept = { view_of [] };

    ghost gone = { view_of [] };
}

impl Exchange for Brand {
    ghost use Rattle.std.specs.Prelude.{[]};
    ghost use Rattle.tag_rule.specs.Rule.{view_of};

    ghost kept = { view_of [] };

    ghost gone = { view_of [] };

    ghost told = { Unit {0} };
}

/// A step on a word.
pub(crate) struct Goes<W> {
    to: PhantomData<W>,
}

impl<W: After> Play<(), View> for Goes<W> {
    ghost use Rattle.std.specs.Prelude.{◌≡◌};

    ghost then = { λ s me n w. (w ≡ (W.after n, me.1)) × W.told n };
}

/// A step that loads word 0.
pub(crate) struct Turns<W> {
    to: PhantomData<W>,
}

impl<W: Change> Play<(), View> for Turns<W> {
    ghost use Rattle.std.specs.Prelude.{◌≡◌};

    ghost then = { λ s me n w. (w ≡ (W.to, me.1)) × W.told };
}

pub(crate) struct Cut<W> {
    halves: PhantomData<W>,
}

impl<W: Halves> Split<View> for Cut<W> {
    ghost left = { λ v. W.kept };

    ghost right = { λ v. W.gone };
}

pub(crate) struct Union;

impl Join<View> for Union {
    ghost use Rattle.std.specs.Prelude.{[], ◌++◌};
    ghost use Rattle.tag_rule.specs.Rule.{view_of};

    ghost both = { λ v w. view_of (v.parts ++ w.parts) };

    ghost spent = { view_of [] };
}
