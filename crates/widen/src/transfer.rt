// A child moves from one slot to another, which is null: the new slot leads to the same object.
ghost use Rattle.std.specs.Prelude.{◌≡◌, ℕ, ◌+◌, ◌^◌, ◌<◌, ◌&&◌, length, ◌==◌};
ghost use Rattle.wire.specs.Pointers.{pointer_kind, high_half, pointer_target, single_far, double_far, re_aimed, unaimed};
ghost use Rattle.tree.specs.Value.{change};
ghost use Rattle.law.specs.Law.{memory};
ghost use Rattle.law.specs.Exact.{near_pointer};
ghost use Rattle.table.specs.Segments.{allocated_in};
ghost use Rattle.table.specs.Placing.{pad};
ghost use Rattle.effects.specs.States.{source_of, state, Sized};
ghost use Rattle.effects.specs.Parts.{Allocates};
ghost use Rattle.widen.specs.Moves.{Movable, Moved, Writes, Bridged};

use arena::{BuilderArena, NoSpace};
use effects::words::write_word;
use segments::source::Source;
use walk::spot::{Spot, pointer_at};
use wire::pointers::{WirePointer, WirePointerKind};

// Whether the pointer is a struct's without sections.
fn is_empty_struct(pointer: WirePointer) -> bool
    ensures value { result ≡ (pointer_kind pointer.word == 0 && high_half pointer.word == 0) }
{
    match pointer.kind() {
        WirePointerKind::Struct => pointer.struct_size().total() == 0,
        _ => false,
    }
}

// The pointer of word `w` as it stands in word `q` of the same segment.
fn near_pointer(pointer: WirePointer, w: usize, q: usize) -> WirePointer
    ensures value { result.word ≡ near_pointer pointer.word w q }
{
    if is_empty_struct(pointer) {
        WirePointer::empty_struct()
    } else {
        pointer.re_aimed(q, pointer.target(w))
    }
}

// Takes a landing pad for a child in segment `g`: a word there, or two words anywhere.
fn take_pad<S: Source>(
    arena: &mut BuilderArena<S>,
    g: usize,
) -> Result<(usize, u32), NoSpace<S::Fault>>
    ensures outcome { g < length (state S.Source arena.old).table → Allocates (source_of S.Source) (λ k. pad k g) 2 (state S.Source arena.old) result (λ p. p) (state S.Source arena.new) }
{
    arena.place_pad(g)
}

// A child to be moved: the pointer of its slot, that slot, and the null slot that is to lead to the same object.
#[derive(Clone, Copy)]
struct Child {
    pointer: WirePointer,
    from: Spot,
    to: Spot,
}

impl Child {
    // The word to which its slot leads, in the slot's own segment.
    fn target(self) -> usize
        ensures { result ≡ pointer_target self.from.word self.pointer.word }
    {
        self.pointer.target(self.from.word)
    }
}

// A landing pad in word `p` of the child's own segment, and the slot as a far pointer to it.
fn write_pad<S: Source>(arena: &mut BuilderArena<S>, child: Child, p: usize)
    ensures words { Sized (state S.Source arena.old) → child.from.segment < 2 ^ 32 → p < 2 ^ 29 → p < allocated_in (state S.Source arena.old).table child.from.segment → child.to.word < allocated_in (state S.Source arena.old).table child.to.segment → Writes (state S.Source arena.old) (change (change (memory (state S.Source arena.old)) child.from.segment p (re_aimed child.pointer.word p (pointer_target child.from.word child.pointer.word))) child.to.segment child.to.word (single_far child.from.segment p)) (state S.Source arena.new) }
{
    let Child { pointer, from, to } = child;
    let pad = Spot { word: p, ..from };
    write_word(arena, pad, pointer.re_aimed(p, child.target()).word);
    write_word(arena, to, WirePointer::single_far(from.segment, p).word);
}

// Two landing pad words from the pad on, and the slot as a far pointer to them.
fn write_pads<S: Source>(arena: &mut BuilderArena<S>, child: Child, pad: Spot)
    requires { pad.word < 2 ^ 32 }
    ensures words { Sized (state S.Source arena.old) → child.from.segment < 2 ^ 32 → pad.segment < 2 ^ 32 → pad.word < 2 ^ 29 → pointer_target child.from.word child.pointer.word < 2 ^ 29 → pad.word + 1 < allocated_in (state S.Source arena.old).table pad.segment → child.to.word < allocated_in (state S.Source arena.old).table child.to.segment → Writes (state S.Source arena.old) (change (change (change (memory (state S.Source arena.old)) pad.segment pad.word (single_far child.from.segment (pointer_target child.from.word child.pointer.word))) pad.segment (pad.word + 1) (unaimed child.pointer.word)) child.to.segment child.to.word (double_far pad.segment pad.word)) (state S.Source arena.new) }
{
    let Child { pointer, from, to } = child;
    let second = Spot {
        word: pad.word + 1,
        ..pad
    };
    write_word(
        arena,
        pad,
        WirePointer::single_far(from.segment, child.target()).word,
    );
    write_word(arena, second, pointer.unaimed().word);
    write_word(
        arena,
        to,
        WirePointer::double_far(pad.segment, pad.word).word,
    );
}

// The child of a slot in another segment: over a landing pad in its own segment, or over two words elsewhere.
fn bridge<S: Source>(arena: &mut BuilderArena<S>, child: Child) -> Result<(), NoSpace<S::Fault>>
    ensures outcome { Movable (state S.Source arena.old) child.from.segment child.from.word child.to.segment child.to.word → pointer_target child.from.word child.pointer.word < 2 ^ 29 → Bridged (source_of S.Source) child.from.segment child.from.word child.pointer.word child.to.segment child.to.word (state S.Source arena.old) result (state S.Source arena.new) }
{
    let (segment, p) = take_pad(arena, child.from.segment)?;
    let word = p as usize;
    if segment == child.from.segment {
        write_pad(arena, child, word);
        return Ok(());
    }
    write_pads(arena, child, Spot { segment, word });
    Ok(())
}

// Moves the child of a slot to another slot, which is null: null and far pointers are copied, in its own segment a child gets a new
// offset, and elsewhere a landing pad.
pub fn transfer_pointer<S: Source>(
    arena: &mut BuilderArena<S>,
    from: Spot,
    to: Spot,
) -> Result<(), NoSpace<S::Fault>>
    ensures outcome { Movable (state S.Source arena.old) from.segment from.word to.segment to.word → Moved (source_of S.Source) from.segment from.word to.segment to.word (state S.Source arena.old) result (state S.Source arena.new) }
{
    let pointer = pointer_at(&arena.source, from);
    if pointer.is_null() {
        return Ok(());
    }
    if pointer.is_far() {
        write_word(arena, to, pointer.word);
        return Ok(());
    }
    if to.segment == from.segment {
        write_word(arena, to, near_pointer(pointer, from.word, to.word).word);
        return Ok(());
    }
    bridge(arena, Child { pointer, from, to })
}
