// The C interface: numbers, slices (a pointer, then a length) and the scalar record cross it. include/gighull.h declares it for C.
// A function answers document 01's number, and leaves its values in what is lent to it: C has no Result, and its names and types stay.
#![tactic(auto)]

ghost use Rattle.std.specs.Prelude.{◌≡◌};
ghost use Rattle.machine.specs.Machine.{machine, scalars_of};
ghost use Rattle.machine.specs.Step.{step_of, step_as};
ghost use Rattle.machine.specs.Run.{run_of, run_as};
ghost use Rattle.encoding.specs.Decode.{decode_of};
ghost use Rattle.stretch.specs.Conflict.{conflict_of};
ghost use Rattle.stretch.specs.Permission.{permitted_of};
ghost use Rattle.listing.specs.Buffer.{Wrote, listed_of, out_of};
ghost use Rattle.console.specs.Parts.{vector_of, predicate_of};
ghost use Rattle.exported.specs.Numbers.{number_in, yes_in};
ghost use Rattle.exported.specs.Fields.{read_into, write_of};
ghost use Rattle.exported.specs.Index.{indexed_of, indexed_as};
ghost use Rattle.exported.specs.Buffers.{fitting};
ghost use Rattle.exported.specs.Version.{interface_version};
ghost use Rattle.gighull.specs.Calls.{setting_of, written_as, listed_as};

use exported::replies;
use machine::Scalars;
use setting::Setting;

// Raised at each change of this interface: a program asks it before it trusts its own header.
#[unsafe(no_mangle)]
pub extern "C" fn gighull_interface_version() -> u32
    ensures { result ≡ interface_version }
{
    exported::interface_version()
}

// One word on the lent machine. The record is advanced where it stands.
#[unsafe(no_mangle)]
pub extern "C" fn gighull_step(
    z: &mut [u8],
    p: &mut [u8],
    zt: &mut [u8],
    scalars: &mut Scalars,
    vl: u32,
    features: u32,
    word: u32,
) -> u32
    ensures { step_as result z.new p.new zt.new scalars.new ≡ step_of (setting_of vl features) word (machine z.old p.old zt.old scalars.old) }
{
    let answer = console::step_lent(z, p, zt, scalars, Setting { vl, features }, word);
    setting::number(answer)
}

// A stretch of words on the lent machine. Of the scalars a run moves PC alone, so PC is lent and the others come as numbers;
// how many words were done is left beside it.
#[unsafe(no_mangle)]
pub extern "C" fn gighull_run(
    z: &mut [u8],
    p: &mut [u8],
    zt: &mut [u8],
    w12: u32,
    w13: u32,
    w14: u32,
    w15: u32,
    pc: &mut u64,
    v: bool,
    s: bool,
    t: bool,
    vl: u32,
    features: u32,
    words: &[u32],
    done: &mut usize,
) -> u32
    ensures { run_as result done.new z.new p.new zt.new (scalars_of w12 w13 w14 w15 pc.new v s t) ≡ run_of (setting_of vl features) words.now (machine z.old p.old zt.old (scalars_of w12 w13 w14 w15 pc.old v s t)) }
{
    let scalars = Scalars {
        w12,
        w13,
        w14,
        w15,
        pc: *pc,
        v,
        s,
        t,
    };
    let r = interpreter::run(z, p, zt, scalars, Setting { vl, features }, words);
    *pc = r.scalars.pc;
    *done = r.done;
    setting::number(r.answer)
}

// Whether two words conflict: 1 for yes.
#[unsafe(no_mangle)]
pub extern "C" fn gighull_conflict(
    vl: u32,
    features: u32,
    first: u32,
    second: u32,
    conflict: &mut u32,
) -> u32
    ensures { (result ≡ number_in (conflict_of (setting_of vl features) first second)) × (conflict.new ≡ yes_in (conflict_of (setting_of vl features) first second)) }
{
    let reply = stretch::conflict(Setting { vl, features }, first, second);
    // what is told takes any answer, and a refusal is one
    let reply = reply.map_err(Err);
    *conflict = replies::yes(reply);
    replies::number(reply)
}

// Whether an order of a stretch's positions is a permitted rearrangement of it: 1 for yes.
#[unsafe(no_mangle)]
pub extern "C" fn gighull_permitted(
    vl: u32,
    features: u32,
    words: &[u32],
    order: &[u32],
    permitted: &mut u32,
) -> u32
    ensures { (result ≡ number_in (permitted_of (setting_of vl features) words.now order.now)) × (permitted.new ≡ yes_in (permitted_of (setting_of vl features) words.now order.now)) }
{
    let reply = stretch::permitted(Setting { vl, features }, words, order);
    let reply = reply.map_err(Err);
    *permitted = replies::yes(reply);
    replies::number(reply)
}

// What a word is read as: seven numbers, the form's place in the table first.
#[unsafe(no_mangle)]
pub extern "C" fn gighull_decode(vl: u32, features: u32, word: u32, fields: &mut [u32]) -> u32
    ensures { (result ≡ number_in (decode_of (setting_of vl features) word)) × (fields.new ≡ read_into (decode_of (setting_of vl features) word) fields.old) }
{
    let decoded = decoder::decode(Setting { vl, features }, word).map_err(Err);
    exported::read(decoded, fields)
}

// The word that seven numbers are written as; 0 where it is refused.
#[unsafe(no_mangle)]
pub extern "C" fn gighull_encode(vl: u32, features: u32, fields: &[u32], word: &mut u32) -> u32
    ensures { written_as result word.new ≡ write_of (setting_of vl features) fields.now }
{
    match exported::written(Setting { vl, features }, fields) {
        Ok(written) => {
            *word = written;
            0
        }
        Err(refusal) => {
            *word = 0;
            u32::from(refusal)
        }
    }
}

// PSEL's index unit: the adder's sum, the mask, and the index.
#[unsafe(no_mangle)]
pub extern "C" fn gighull_psel_index(
    vl: u32,
    size: u32,
    offset: u32,
    w: u32,
    sum: &mut u32,
    mask: &mut u32,
    index: &mut u32,
) -> u32
    ensures { indexed_as result sum.new mask.new index.new ≡ indexed_of vl size offset w }
{
    exported::adder::index(vl, size, offset, w, sum, mask, index)
}

// The bytes of a Z register, and how many they are.
#[unsafe(no_mangle)]
pub extern "C" fn gighull_vector(file: &[u8], vl: u32, register: u32, out: &mut [u8]) -> usize
    ensures { Wrote (fitting (vector_of file.now vl register) out.old) out.old out.new result }
{
    exported::copied(console::vector(file, vl, register), out)
}

// The bytes of a P register, and how many they are.
#[unsafe(no_mangle)]
pub extern "C" fn gighull_predicate(file: &[u8], vl: u32, register: u32, out: &mut [u8]) -> usize
    ensures { Wrote (fitting (predicate_of file.now vl register) out.old) out.old out.new result }
{
    exported::copied(console::predicate(file, vl, register), out)
}

// The lines of as much input as surely fits: how much was read, and how much text that gave.
#[unsafe(no_mangle)]
pub extern "C" fn gighull_lines(input: &[u8], out: &mut [u8], written: &mut usize) -> usize
    ensures { (listed_as result written.new ≡ listed_of input.now out.old) × (out.new ≡ out_of input.now out.old) }
{
    let listed = listing::lines(input, out);
    *written = listed.written;
    listed.read
}
