// Replies and facts as bytes.
ghost use Rattle.std.specs.Prelude.{◌≡◌, ℕ, ◌+◌, ◌/◌, ◌%◌, [], ◌∷◌};
ghost use Rattle.facts.specs.Sets.{holds};
ghost use Rattle.sheets.specs.Writers.{Room, Writes};
ghost use Rattle.bench.specs.Records.{eight, word_bytes, bytes_of_reply, code_of_state, value_of, RecordPut};

use boards::Board;
use cards::{Reply, RunFault, State};
use facts::FactSet;
use sheets::Writer;

// Writes a number in eight bytes, the highest byte first.
pub(crate) fn put_number(writer: &mut Writer, n: usize)
    requires { Room writer.old 8 }
    ensures { Writes writer.old (eight n) writer.new }
{
    writer.put(n as u64);
}

// Writes a set of facts in 128 bytes, fact p as bit p % 8 of byte p / 8.
pub(crate) fn put_facts(writer: &mut Writer, facts: FactSet)
    requires { Room writer.old 128 }
    ensures bytes { Writes writer.old (word_bytes facts.words) writer.new }
    ensures place { writer.new.at ≡ writer.old.at + 128 }
{
    for word in facts.words() {
        writer.put_bytes(&u64::to_le_bytes(word));
    }
}

// The facts on a board, as a set.
fn facts_on<D: Board>(board: &D) -> FactSet
    ensures { (q : ℕ) → holds result.words q ≡ D.Board.set board.now q }
{
    FactSet::from_fn(1024, |p| board.held(p))
}

// A match to numbers: they are the codes of the C interface.
fn state_code(state: State) -> u8
    ensures { result ≡ code_of_state state }
{
    match state {
        State::Waiting => 0,
        State::InHand => 1,
        State::Finished => 2,
    }
}

// What a refused call names; 0 where it names nothing.
fn value_of(fault: RunFault) -> usize
    ensures { result ≡ value_of fault }
{
    match fault {
        RunFault::Unfinished { lowest } => lowest,
        _ => 0,
    }
}

// Writes the lower two bytes of a number, the higher of them first.
fn put_low(writer: &mut Writer, n: usize)
    requires { Room writer.old 2 }
    ensures { Writes writer.old (n / 256 % 256 ∷ n % 256 ∷ []) writer.new }
{
    writer.put((n % 65536) as u16);
}

// Writes a reply in 16 bytes: 0, granted; 1, then step and level in two bytes each and the state; 2, then the refusal's
// number and in eight bytes what it names.
fn put_reply(writer: &mut Writer, reply: Reply)
    requires { Room writer.old 16 }
    ensures { Writes writer.old (bytes_of_reply reply) writer.new }
{
    match reply {
        Reply::Granted => writer.put_bytes(&[0; 16]),
        Reply::Seen { step, level, state } => {
            writer.put(1u8);
            put_low(writer, step);
            put_low(writer, level);
            writer.put(state_code(state));
            writer.put_bytes(&[0; 10]);
        }
        Reply::Refused(fault) => {
            writer.put(2u8);
            writer.put(fault.number());
            put_number(writer, value_of(fault));
            writer.put_bytes(&[0; 6]);
        }
    }
}

// Writes a reply and the facts on the board in 144 bytes.
pub(crate) fn put_record<D: Board>(writer: &mut Writer, reply: Reply, board: &D)
    requires { Room writer.old 144 }
    ensures bytes { RecordPut writer.old reply (D.Board.set board.now) writer.new }
    ensures place { writer.new.at ≡ writer.old.at + 144 }
{
    put_reply(writer, reply);
    put_facts(writer, facts_on(board));
}
