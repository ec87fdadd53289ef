// Bytes put into a lent table. A place runs on past the table's end, as a count.
ghost use Rattle.std.specs.Prelude.{◌≡◌, [], ◌∷◌, ◌+◌, ◌≤◌, ◌<◌, ◌^◌, length};
ghost use Rattle.model.specs.Lists.{concat_map};
ghost use Rattle.model.specs.Values.{kind_is, division_of, constraint_of, basic_set_of};
ghost use Rattle.codec.specs.Bytes.{bytes_of, signed_bytes, unsigned, encode_command, encode, opens, division, constraint, opcode, numbered_opcode, rule_head};
ghost use Rattle.codec.specs.Places.{division_width, longest_division, longest_constraint, longest_basic};
ghost use Rattle.records.specs.Writing.{Emitted, Encodable, cleared};

use codec::{
    DIVISION, EQUALITY, INEQUALITY, LONGEST_CONSTRAINT, LONGEST_DIVISION, NUMBERED_EQUALITY,
    NUMBERED_INEQUALITY, OPENS,
};
use model::{BasicSet, Constraint, Division, limit};

// Zeros from a place on: after a refusal from 0, after a result from its end.
pub fn clear(out: &mut [u8], from: usize)
    ensures { out.new ≡ cleared from out.old }
{
    if from < out.len() {
        out[from..].fill(0);
    }
}

// Bytes as they are; the result is the place behind them.
pub fn copy_bytes(from: &[u8], out: &mut [u8], at: usize) -> usize
    requires { at + length from.now < 2 ^ 64 }
    ensures { Emitted from.now out.old at result out.new }
{
    if at < out.len() {
        let n = from.len().min(out.len() - at);
        out[at..at + n].copy_from_slice(&from[..n]);
    }
    at + from.len()
}

// The same where the table has room for them.
fn put(out: &mut [u8], at: usize, bytes: &[u8]) -> usize
    requires { at + length bytes.now ≤ length out.old }
    ensures { Emitted bytes.now out.old at result out.new }
{
    let end = at + bytes.len();
    out[at..end].copy_from_slice(bytes);
    end
}

fn put_coefficients(out: &mut [u8], at: usize, a: [i16; limit::PLACES]) -> usize
    requires { at + 16 ≤ length out.old }
    ensures bytes { Emitted (concat_map (signed_bytes 2) a) out.old at result out.new }
    ensures size { result ≡ at + 16 }
{
    let mut p = at;
    for x in &a {
        p = put(out, p, &x.to_le_bytes());
    }
    p
}

fn put_division(out: &mut [u8], at: usize, e: Division) -> usize
    requires { at + longest_division ≤ length out.old }
    ensures bytes { Emitted (encode_command (division (division_of e))) out.old at result out.new }
    ensures size { result ≡ at + division_width (division_of e) }
{
    let p = put(out, at, &[DIVISION]);
    let p = put(out, p, &e.divisor.to_le_bytes()[..2]);
    let p = put(out, p, &e.constant.to_le_bytes());
    put_coefficients(out, p, e.axes)
}

// What stands before the body of a constraint: the command, and its number where it has one.
fn put_head(out: &mut [u8], at: usize, equality: bool, number: u16) -> usize
    requires { at + 3 ≤ length out.old }
    ensures bytes { Emitted (rule_head (kind_is equality) number) out.old at result out.new }
    ensures size { result ≤ at + 3 }
{
    if number == 0 {
        return put(out, at, &[if equality { EQUALITY } else { INEQUALITY }]);
    }
    let command = if equality {
        NUMBERED_EQUALITY
    } else {
        NUMBERED_INEQUALITY
    };
    let p = put(out, at, &[command]);
    put(out, p, &number.to_le_bytes())
}

fn put_constraint(out: &mut [u8], at: usize, r: Constraint) -> usize
    requires { at + longest_constraint ≤ length out.old }
    ensures bytes { Emitted (encode_command (constraint (constraint_of r))) out.old at result out.new }
    ensures size { result ≤ at + longest_constraint }
{
    let p = put_head(out, at, r.equality, r.number);
    let p = put(out, p, &r.constant.to_le_bytes());
    let p = put_coefficients(out, p, r.axes);
    put_coefficients(out, p, r.divisions)
}

fn emit_opening(out: &mut [u8], at: usize) -> usize
    requires { at < 2 ^ 63 }
    ensures { Emitted (encode_command opens) out.old at result out.new }
{
    if at < out.len() {
        out[at] = OPENS;
    }
    at + 1
}

fn emit_division(out: &mut [u8], at: usize, e: Division) -> usize
    requires { at < 2 ^ 63 + longest_basic }
    ensures bytes { Emitted (encode_command (division (division_of e))) out.old at result out.new }
    ensures size { result ≡ at + division_width (division_of e) }
{
    if at + LONGEST_DIVISION <= out.len() {
        return put_division(out, at, e);
    }
    let mut b = [0u8; LONGEST_DIVISION];
    put_division(&mut b, 0, e);
    copy_bytes(&b, out, at)
}

fn emit_constraint(out: &mut [u8], at: usize, r: Constraint) -> usize
    requires { at < 2 ^ 63 + longest_basic }
    ensures bytes { Emitted (encode_command (constraint (constraint_of r))) out.old at result out.new }
    ensures size { result ≤ at + longest_constraint }
{
    if at + LONGEST_CONSTRAINT <= out.len() {
        return put_constraint(out, at, r);
    }
    let mut b = [0u8; LONGEST_CONSTRAINT];
    let n = put_constraint(&mut b, 0, r);
    copy_bytes(&b[..n], out, at)
}

// The bytes of a basic set, its `11` first; the result is the place behind them.
pub fn encode_basic(b: BasicSet, out: &mut [u8], at: usize) -> usize
    requires { Encodable b at }
    ensures { Emitted (encode (basic_set_of b ∷ [])) out.old at result out.new }
{
    let mut p = emit_opening(out, at);
    for e in &b.divisions[..b.divs] {
        p = emit_division(out, p, *e);
    }
    for r in &b.constraints[..b.cons] {
        p = emit_constraint(out, p, *r);
    }
    p
}
