//! The words of what the slots of a circuit show.
ghost use Rattle.std.specs.Prelude.{◌≡◌, ℕ, ◌+◌, ◌*◌, ◌<◌, ◌^◌, ◌≤◌, Some, length, map, replicate, slice_get, true};
ghost use Rattle.sim_base.specs.Parts.{halves_of};
ghost use Rattle.sim_base.specs.Shape.{words_of_width, words_of_widths};
ghost use Rattle.sim_base.specs.Values.{widths};
ghost use Rattle.circuit.specs.Built.{ShowsWhatIsThere};
ghost use Rattle.circuit.specs.Rounds.{Run, Standing};
ghost use Rattle.circuit.specs.Shown.{flag, stored_row};
ghost use Rattle.circuit.specs.Slots.{item_widths, slot_widths};
ghost use Rattle.circuit.specs.Valid.{is_valid};
ghost use Rattle.circuit.specs.declared.memory.Mem.{Mem as TheMem};
ghost use Rattle.spool_format.specs.Reading.{written_at};
ghost use Rattle.run_core.specs.Words.{StandsAt, item_words, kind_words, widths_of_items, words_at, words_of_slots};

use circuit::{Circuit, ItemKind, law_of_parts, law_of_validity};
use eval_commit::Machine;
use sim_base::{Bits, BitsView};

/// Puts the words of a value over those from a place on.
fn put_value(value: &BitsView, words: &mut [u32], place: usize)
    requires { place + words_of_width value.now.width ≤ length words.old }
    ensures { words.new ≡ written_at words.old place (halves_of value.now) }
{
    for n in 0..value.width().div_ceil(32) {
        words[place + n as usize] = value.half(n);
    }
}

/// How many words the slots of an item take.
fn words_of_item(circuit: &Circuit, kind: ItemKind) -> usize
    ensures { result ≡ words_of_widths (item_widths circuit.now.nets circuit.now.mems kind) }
{
    match kind {
        ItemKind::Node { net, .. } => match circuit.nets.get(net as usize) {
            Some(net) => net.width.div_ceil(32) as usize,
            None => 0,
        },
        ItemKind::Memory { mem } => match circuit.mems.get(mem as usize) {
            Some(mem) => mem.size as usize * mem.width.div_ceil(32) as usize,
            None => 0,
        },
    }
}

/// Puts the words of row after row of a memory. Each is read into a room of a row's width.
fn put_rows(
    machine: &Machine,
    mem: u32,
    size: u32,
    room: &mut Bits,
    words: &mut [u32],
    place: usize,
)
    requires there { (m : TheMem) × (slice_get machine.now.circuit.mems mem ≡ Some m) × (size ≤ m.size) × (room.old.width ≡ m.width) }
    requires room { place + size * words_of_width room.old.width ≤ length words.old }
    ensures width { room.new.width ≡ room.old.width }
    ensures long { length words.new ≡ length words.old }
    ensures words { (s : Standing) → machine.now.standing ≡ Some s
        → words.new ≡ written_at words.old place (words_of_slots (replicate size room.old.width) (λ row. stored_row (slice_get s.state.mems mem) row)) }
{
    let mut at = place;
    for row in 0..size {
        machine.row(mem, row, room);
        put_value(&room.view(), words, at);
        at += room.width().div_ceil(32) as usize;
    }
}

/// Puts the words of an item's slots. The rooms are one for each memory, of the width of its rows.
fn put_item(
    machine: &Machine,
    circuit: &Circuit,
    rooms: &mut [Bits],
    kind: ItemKind,
    words: &mut [u32],
    place: usize,
)
    requires circuit { machine.now.circuit ≡ circuit.now }
    requires there { ShowsWhatIsThere circuit.now kind }
    requires rooms { widths rooms.old ≡ map (λ m. m.width) circuit.now.mems }
    requires room { place + words_of_widths (item_widths circuit.now.nets circuit.now.mems kind) ≤ length words.old }
    ensures rooms { widths rooms.new ≡ widths rooms.old }
    ensures long { length words.new ≡ length words.old }
    ensures words { (s : Standing) → machine.now.standing ≡ Some s → words.new ≡ written_at words.old place (kind_words circuit.now s kind) }
{
    match kind {
        ItemKind::Node { net, .. } => put_value(&machine.net(net), words, place),
        ItemKind::Memory { mem } => {
            let size = circuit.mems.as_slice()[mem as usize].size;
            put_rows(machine, mem, size, &mut rooms[mem as usize], words, place);
        }
    }
}

/// Puts the words of all items at the head of those of all slots, and tells how many they are.
fn put_items(machine: &Machine, circuit: &Circuit, rooms: &mut [Bits], words: &mut [u32]) -> usize
    requires valid { is_valid circuit.now ≡ true }
    requires circuit { machine.now.circuit ≡ circuit.now }
    requires rooms { widths rooms.old ≡ map (λ m. m.width) circuit.now.mems }
    requires room { words_of_widths (widths_of_items circuit.now circuit.now.items) ≤ length words.old }
    ensures place { result ≡ words_of_widths (widths_of_items circuit.now circuit.now.items) }
    ensures rooms { widths rooms.new ≡ widths rooms.old }
    ensures long { length words.new ≡ length words.old }
    ensures words { (s : Standing) → machine.now.standing ≡ Some s → words.new ≡ written_at words.old 0 (item_words circuit.now s circuit.now.items) }
{
    law_of_parts();
    let mut place = 0usize;
    for item in circuit.items.as_slice() {
        put_item(machine, circuit, rooms, item.kind, words, place);
        place += words_of_item(circuit, item.kind);
    }
    place
}

/// The word of a flag.
fn flag_word(set: bool) -> u32
    ensures { result ≡ flag set }
{
    if set { 1 } else { 0 }
}

/// Puts the word of each diagnostic: whether it fired.
fn put_fired(machine: &Machine, circuit: &Circuit, words: &mut [u32], place: usize)
    requires circuit { machine.now.circuit ≡ circuit.now }
    requires few { length circuit.now.diags < 2 ^ 32 }
    requires fired { length machine.now.fired ≡ length circuit.now.diags }
    requires room { place + length circuit.now.diags ≤ length words.old }
    ensures { words.new ≡ written_at words.old place (map flag machine.now.fired) }
{
    let count = circuit.diags.as_slice().len() as u32;
    for d in 0..count {
        words[place + d as usize] = flag_word(machine.fired(d));
    }
}

/// Puts the words of all slots, as they are where a machine stands.
pub(crate) fn put_words(machine: &Machine, circuit: &Circuit, rooms: &mut [Bits], words: &mut [u32])
    requires valid { is_valid circuit.now ≡ true }
    requires circuit { machine.now.circuit ≡ circuit.now }
    requires rooms { widths rooms.old ≡ map (λ m. m.width) circuit.now.mems }
    requires fired { length machine.now.fired ≡ length circuit.now.diags }
    requires room { length words.old ≡ words_of_widths (slot_widths circuit.now) }
    ensures rooms { widths rooms.new ≡ widths rooms.old }
    ensures long { length words.new ≡ length words.old }
    ensures words { (run : Run) (k : ℕ) (s : Standing) → StandsAt run k machine.now s → words.new ≡ words_at run k }
{
    law_of_validity();
    let place = put_items(machine, circuit, rooms, words);
    put_fired(machine, circuit, words, place);
}
