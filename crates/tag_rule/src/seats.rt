//! What a seat can do at the table. Every step is one atomic operation on one word.

ghost use Rattle.std.specs.Prelude.{ℕ, ◌≡◌, ◌+◌, ◌-◌, ◌%◌, ◌^◌, ◌<◌, [], ◌++◌, take, drop};
ghost use Rattle.tag_model.specs.Index.{word_count};
ghost use Rattle.tag_rule.specs.Rule.{Moves, Peeks, Tells, Writes, view_of};

use crate::rule::{After, Change, Cut, Exchange, Goes, Halves, Turns, Union};
use crate::words::{Seat, Words};
use std::marker::Brand;

/// Adds to a word that the seat owns. Here and below `about` is for the proof alone: what the step turns the seat's parts
/// into is picked from the arguments.
pub(crate) fn add<W: After, A>(words: &Words, seat: &mut Seat, at: usize, n: u64, _about: &A)
    requires table { seat.old.table_id ≡ words.now.table.shared.table_id }
    requires place { (0 < at) × (at < word_count words.now.shape) }
    requires step { Writes words.now.shape at (λ found. (found + n) % 2 ^ 64) seat.old.me.0.parts W.after W.told }
    ensures seat { (seat.new.table_id ≡ seat.old.table_id) × ((found : ℕ) × (seat.new.me ≡ (W.after found, seat.old.me.1)) × W.told found) }
{
    words.table.shared.fetch_add::<Goes<W>>(seat, at, n);
}

/// Subtracts from a word that the seat owns.
pub(crate) fn subtract<W: After, A>(words: &Words, seat: &mut Seat, at: usize, n: u64, _about: &A)
    requires table { seat.old.table_id ≡ words.now.table.shared.table_id }
    requires place { (0 < at) × (at < word_count words.now.shape) }
    requires step { Writes words.now.shape at (λ found. (found + (2 ^ 64 - n)) % 2 ^ 64) seat.old.me.0.parts W.after W.told }
    ensures seat { (seat.new.table_id ≡ seat.old.table_id) × ((found : ℕ) × (seat.new.me ≡ (W.after found, seat.old.me.1)) × W.told found) }
{
    words.table.shared.fetch_sub::<Goes<W>>(seat, at, n);
}

/// Writes a word that the seat owns.
pub(crate) fn store<W: After, A>(words: &Words, seat: &mut Seat, at: usize, new: u64, _about: &A)
    requires table { seat.old.table_id ≡ words.now.table.shared.table_id }
    requires place { (0 < at) × (at < word_count words.now.shape) }
    requires step { Writes words.now.shape at (λ found. new) seat.old.me.0.parts (λ found. W.after new) (λ found. W.told new) }
    ensures seat { (seat.new.table_id ≡ seat.old.table_id) × (seat.new.me ≡ (W.after new, seat.old.me.1)) × W.told new }
{
    words.table.shared.store::<Goes<W>>(seat, at, new);
}

/// Looks at a word that the seat owns.
pub(crate) fn look<W: After, A>(words: &Words, seat: &mut Seat, at: usize, _about: &A) -> u64
    requires table { seat.old.table_id ≡ words.now.table.shared.table_id }
    requires place { (0 < at) × (at < word_count words.now.shape) }
    requires step { Writes words.now.shape at (λ found. found) seat.old.me.0.parts W.after W.told }
    ensures seat { (seat.new.table_id ≡ seat.old.table_id) × (seat.new.me ≡ (W.after result, seat.old.me.1)) × W.told result }
{
    words.table.shared.load::<Goes<W>>(seat, at)
}

/// Looks at a word that another seat owns.
pub(crate) fn peek<W: After, A>(words: &Words, seat: &mut Seat, at: usize, _about: &A) -> u64
    requires table { seat.old.table_id ≡ words.now.table.shared.table_id }
    requires place { (0 < at) × (at < word_count words.now.shape) }
    requires step { Peeks words.now.shape at seat.old.me.0.parts W.after W.told }
    ensures seat { (seat.new.table_id ≡ seat.old.table_id) × (seat.new.me ≡ (W.after result, seat.old.me.1)) × W.told result }
{
    words.table.shared.load::<Goes<W>>(seat, at)
}

/// The seat's parts become others, with no word changed.
pub(crate) fn turn<W: Change, A>(words: &Words, seat: &mut Seat, _about: &A)
    requires table { seat.old.table_id ≡ words.now.table.shared.table_id }
    requires moves { Moves words.now.shape seat.old.me.0.parts W.to.parts }
    requires tells { Tells words.now.shape seat.old.me.0.parts W.told }
    ensures seat { (seat.new.table_id ≡ seat.old.table_id) × (seat.new.me ≡ (W.to, seat.old.me.1)) × W.told }
{
    words.table.shared.load::<Turns<W>>(seat, 0);
}

/// Cuts the seat's parts in two. The new seat has the second half.
pub(crate) fn divide_seat<W: Halves, A>(words: &Words, seat: &mut Seat, _about: &A) -> Seat
    requires table { seat.old.table_id ≡ words.now.table.shared.table_id }
    requires moves { Moves words.now.shape seat.old.me.0.parts (W.kept.parts ++ W.gone.parts) }
    ensures kept { (seat.new.table_id ≡ seat.old.table_id) × (seat.new.me ≡ (W.kept, seat.old.me.1)) }
    ensures gone { (result.table_id ≡ seat.old.table_id) × (result.me ≡ (W.gone, [])) }
{
    words.table.shared.split_seat::<Cut<W>>(seat)
}

/// The seat has the other's parts too, behind its own.
pub(crate) fn unite_seat(words: &Words, seat: &mut Seat, other: Seat)
    requires table { (seat.old.table_id ≡ words.now.table.shared.table_id) × (other.table_id ≡ words.now.table.shared.table_id) }
    requires bare { other.me.1 ≡ [] }
    ensures seat { (seat.new.table_id ≡ seat.old.table_id) × (seat.new.me ≡ (view_of (seat.old.me.0.parts ++ other.me.0.parts), seat.old.me.1)) }
{
    words.table.shared.join_seat::<Union>(seat, other);
}

/// The seat keeps its first `n` parts, and the new one has the others.
pub(crate) fn split_off(words: &Words, seat: &mut Seat, n: usize) -> Seat
    requires table { seat.old.table_id ≡ words.now.table.shared.table_id }
    ensures kept { (seat.new.table_id ≡ seat.old.table_id) × (seat.new.me ≡ (view_of (take n seat.old.me.0.parts), seat.old.me.1)) }
    ensures gone { (result.table_id ≡ seat.old.table_id) × (result.me ≡ (view_of (drop n seat.old.me.0.parts), [])) }
{
    divide_seat::<Brand, usize>(words, seat, &n)
}

/// The new seat has the first `n` parts.
pub(crate) fn take_front(words: &Words, seat: &mut Seat, n: usize) -> Seat
    requires table { seat.old.table_id ≡ words.now.table.shared.table_id }
    ensures kept { (seat.new.table_id ≡ seat.old.table_id) × (seat.new.me ≡ (view_of (drop n seat.old.me.0.parts), seat.old.me.1)) }
    ensures gone { (result.table_id ≡ seat.old.table_id) × (result.me ≡ (view_of (take n seat.old.me.0.parts), [])) }
{
    divide_seat::<Brand, usize>(words, seat, &n)
}

/// Two seats have their parts together for one step that changes no word, and then divide them anew.
pub(crate) fn exchange<W: Exchange, A>(words: &Words, one: &mut Seat, other: &mut Seat, about: &A)
    requires tables { (one.old.table_id ≡ words.now.table.shared.table_id) × (other.old.table_id ≡ words.now.table.shared.table_id) }
    requires bare { (one.old.me.1 ≡ []) × (other.old.me.1 ≡ []) }
    requires moves { Moves words.now.shape (one.old.me.0.parts ++ other.old.me.0.parts) (W.kept.parts ++ W.gone.parts) }
    requires tells { Tells words.now.shape (one.old.me.0.parts ++ other.old.me.0.parts) W.told }
    ensures one { (one.new.table_id ≡ one.old.table_id) × (one.new.me ≡ (W.kept, [])) }
    ensures other { (other.new.table_id ≡ other.old.table_id) × (other.new.me ≡ (W.gone, [])) }
    ensures told { W.told }
{
    let lent = split_off(words, other, 0);
    unite_seat(words, one, lent);
    turn::<Brand, A>(words, one, about);
    let back = divide_seat::<Brand, A>(words, one, about);
    unite_seat(words, other, back);
}

/// Two seats have their parts together for one look at a word that the first one owns. Then the first has the first part,
/// and the other the rest.
pub(crate) fn look_together<W: After, A>(
    words: &Words,
    one: &mut Seat,
    other: &mut Seat,
    at: usize,
    about: &A,
) -> u64
    requires tables { (one.old.table_id ≡ words.now.table.shared.table_id) × (other.old.table_id ≡ words.now.table.shared.table_id) }
    requires bare { (one.old.me.1 ≡ []) × (other.old.me.1 ≡ []) }
    requires place { (0 < at) × (at < word_count words.now.shape) }
    requires step { Writes words.now.shape at (λ found. found) (one.old.me.0.parts ++ other.old.me.0.parts) W.after W.told }
    ensures one { (one.new.table_id ≡ one.old.table_id) × (one.new.me ≡ (view_of (take 1 (W.after result).parts), [])) }
    ensures other { (other.new.table_id ≡ other.old.table_id) × (other.new.me ≡ (view_of (drop 1 (W.after result).parts), [])) }
    ensures told { W.told result }
{
    let lent = split_off(words, other, 0);
    unite_seat(words, one, lent);
    let word = look::<W, A>(words, one, at, about);
    let back = split_off(words, one, 1);
    unite_seat(words, other, back);
    word
}
