//! Why an op's first step is refused.

ghost use Rattle.std.specs.Prelude.{◌≡◌, ◌+◌, ◌<◌, ◌==◌, if◌then◌else◌, None, length};
ghost use Rattle.cpu_ops.specs.declared.op.TheConstants.{KEY_END};
ghost use Rattle.cpu_ops.specs.Machine.{holds_nothing, size_of, is_used, is_live, used_key, open_refusal, close_refusal, split_refusal, swap_refusal, trim_refusal, enter_refusal, leave_refusal, first_refusal};
ghost use Rattle.cpu_ops.specs.Needs.{KeysFit, SectionsFit};
ghost use Rattle.tag_model.specs.Reference.{is_counted};

use crate::machine::Machine;
use crate::op::CpuOp;
use crate::refused::StepRefused;
use crate::scene::{self, Scene};
use tag_model::Held;

fn is_empty_place(held: Held) -> bool
    ensures { result ≡ holds_nothing held }
{
    matches!(held, Held::None)
}

fn size_of(held: Held) -> u64
    ensures { result ≡ size_of held }
{
    match held {
        Held::None | Held::Empty => 0,
        Held::Counted { size, .. } => size,
    }
}

impl Machine {
    /// Whether the key can't have a new reference.
    fn is_used(&self, key: u32) -> bool
        requires { key < KEY_END }
        ensures { result ≡ is_used self.now.places self.now.waiting key }
    {
        !is_empty_place(self.held(key)) || self.is_reserved(key)
    }

    /// Whether the key has a reference that an op can take.
    fn is_live(&self, key: u32) -> bool
        requires { key < KEY_END }
        ensures { result ≡ is_live self.now.places self.now.waiting key }
    {
        self.held(key).is_counted() && !self.is_reserved(key)
    }

    /// The lowest of a split's new keys that can't have a reference.
    fn used_key(&self, parts: u32, first: u32) -> Option<u32>
        requires some_parts { 0 < parts }
        requires last { first + parts < KEY_END + 2 }
        ensures { result ≡ used_key self.now.places self.now.waiting parts first }
    {
        for key in first..first + (parts - 1) {
            if self.is_used(key) {
                return Some(key);
            }
        }
        None
    }

    fn open_refusal(&self, key: u32, section: u32, scene: &Scene<'_>) -> Option<StepRefused>
        requires key { key < KEY_END }
        requires section { section < length scene.now.inside }
        ensures { result ≡ open_refusal self.now.places self.now.waiting scene.now.inside key section }
    {
        if self.is_used(key) {
            return Some(StepRefused::KeyUsed(key));
        }
        if scene.inside().is_outside(section) {
            return Some(StepRefused::NotRunning(section));
        }
        None
    }

    fn close_refusal(&self, key: u32) -> Option<StepRefused>
        requires { key < KEY_END }
        ensures { result ≡ close_refusal self.now.places self.now.waiting key }
    {
        if !self.is_live(key) {
            return Some(StepRefused::NotLive(key));
        }
        None
    }

    fn split_refusal(&self, key: u32, parts: u32, first: u32) -> Option<StepRefused>
        requires key { key < KEY_END }
        requires some_parts { 0 < parts }
        requires last { first + parts < KEY_END + 2 }
        ensures { result ≡ split_refusal self.now.places self.now.waiting key parts first }
    {
        if !self.is_live(key) {
            return Some(StepRefused::NotLive(key));
        }
        if let Some(used) = self.used_key(parts, first) {
            return Some(StepRefused::KeyUsed(used));
        }
        if size_of(self.held(key)) % u64::from(parts) != 0 {
            return Some(StepRefused::Uneven);
        }
        None
    }

    fn swap_refusal(&self, one: u32, two: u32) -> Option<StepRefused>
        requires one { one < KEY_END }
        requires two { two < KEY_END }
        ensures { result ≡ swap_refusal self.now.places self.now.waiting one two }
    {
        if !self.is_live(one) {
            return Some(StepRefused::NotLive(one));
        }
        if !self.is_live(two) {
            return Some(StepRefused::NotLive(two));
        }
        None
    }

    fn trim_refusal(&self, key: u32, bytes: u64) -> Option<StepRefused>
        requires { key < KEY_END }
        ensures { result ≡ trim_refusal self.now.places self.now.waiting key bytes }
    {
        if !self.is_live(key) {
            return Some(StepRefused::NotLive(key));
        }
        if bytes >= size_of(self.held(key)) {
            return Some(StepRefused::TooSmall);
        }
        None
    }

    /// Why the op's next step is refused, if it is. Only its first one can be.
    pub(crate) fn refusal(&self, op: CpuOp, done: u64, scene: &Scene<'_>) -> Option<StepRefused>
        requires keys { KeysFit op }
        requires sections { SectionsFit op (length scene.now.inside) }
        ensures { result ≡ (if done == 0 then first_refusal self.now.places self.now.waiting scene.now op else None) }
    {
        if done == 0 {
            return self.first_refusal(op, scene);
        }
        None
    }

    fn first_refusal(&self, op: CpuOp, scene: &Scene<'_>) -> Option<StepRefused>
        requires keys { KeysFit op }
        requires sections { SectionsFit op (length scene.now.inside) }
        ensures { result ≡ first_refusal self.now.places self.now.waiting scene.now op }
    {
        match op {
            CpuOp::Open { key, section, .. } => self.open_refusal(key, section, scene),
            CpuOp::Close { key } => self.close_refusal(key),
            CpuOp::Split { key, parts, first } => self.split_refusal(key, parts, first),
            CpuOp::Swap { one, two } => self.swap_refusal(one, two),
            CpuOp::Trim { key, bytes } => self.trim_refusal(key, bytes),
            CpuOp::Enter { section } => enter_refusal(section, scene),
            CpuOp::Leave { section } => leave_refusal(section, scene),
        }
    }
}

fn enter_refusal(section: u32, scene: &Scene<'_>) -> Option<StepRefused>
    requires { section < length scene.now.inside }
    ensures { result ≡ enter_refusal scene.now section }
{
    if scene.is_held() {
        return Some(StepRefused::ListHeld);
    }
    if scene::loaded(scene.list(), section).is_none() {
        return Some(StepRefused::NotLoaded(section));
    }
    if scene.inside().run(section).is_some() {
        return Some(StepRefused::Inside(section));
    }
    None
}

fn leave_refusal(section: u32, scene: &Scene<'_>) -> Option<StepRefused>
    requires { section < length scene.now.inside }
    ensures { result ≡ leave_refusal scene.now section }
{
    if scene.is_held() {
        return Some(StepRefused::ListHeld);
    }
    if scene.inside().run(section).is_none() {
        return Some(StepRefused::NotRunning(section));
    }
    None
}
