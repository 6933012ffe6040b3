// Records into a buffer. Bytes past its end are not written.
ghost use Rattle.std.specs.Prelude.{◌≡◌, [], ◌∷◌, ◌++◌, ◌+◌, ◌/◌, ◌%◌, ◌≤◌, ◌<◌, ◌^◌, length};
ghost use Rattle.std.proofs.lemmas.List.Edits.{sets};
ghost use Rattle.records.specs.Bytes.{bytes2, bytes4};
ghost use Rattle.twin_records.specs.Texts.{record_text, Puts};

fn low(v: u16) -> u8
    ensures { result ≡ v % 256 }
{
    v.to_le_bytes()[0]
}

fn high(v: u16) -> u8
    ensures { result ≡ (v / 256) % 256 }
{
    v.to_le_bytes()[1]
}

// A record that goes past the end: of its bytes those that have room.
fn put_part(out: &mut [u8], at: usize, bytes: [u8; 16])
    requires { (at ≤ length out.old) × (length out.old ≤ at + 16) }
    ensures { out.new ≡ sets out.old at bytes }
{
    let room = out.len() - at;
    out[at..].copy_from_slice(&bytes[..room]);
}

fn put_whole(out: &mut [u8], at: usize, bytes: [u8; 16])
    requires { at + 16 ≤ length out.old }
    ensures { out.new ≡ sets out.old at bytes }
{
    out[at..at + 16].copy_from_slice(&bytes);
}

// Answers the place behind the record, as all of these do.
pub fn put_record(out: &mut [u8], at: usize, bytes: [u8; 16]) -> usize
    requires { at < 2 ^ 62 }
    ensures { Puts out.old at bytes out.new result 16 }
{
    let behind = at + 16;
    if behind <= out.len() {
        put_whole(out, at, bytes);
        return behind;
    }
    if at < out.len() {
        put_part(out, at, bytes);
    }
    behind
}

pub fn initial_bytes(state: u16) -> [u8; 16]
    ensures { result ≡ record_text 33 (0 ∷ bytes2 state) }
{
    [
        33,
        0,
        low(state),
        high(state),
        0,
        0,
        0,
        0,
        0,
        0,
        0,
        0,
        0,
        0,
        0,
        0,
    ]
}

pub fn home_bytes(chart: u8) -> [u8; 16]
    ensures { result ≡ record_text 34 (chart ∷ []) }
{
    [34, chart, 0, 0, 0, 0, 0, 0, 0, 0, 0, 0, 0, 0, 0, 0]
}

pub fn edge_bytes(automaton: u8, source: u16, target: u16, idles: u8) -> [u8; 16]
    ensures { result ≡ record_text 35 (automaton ∷ bytes2 source ++ bytes2 target ++ (idles ∷ [])) }
{
    [
        35,
        automaton,
        low(source),
        high(source),
        low(target),
        high(target),
        idles,
        0,
        0,
        0,
        0,
        0,
        0,
        0,
        0,
        0,
    ]
}

pub fn literal_bytes(sign: u8, edge: u16, code: u8, event: u8, clock: u16, guard: u16) -> [u8; 16]
    ensures { result ≡ record_text 36 (sign ∷ bytes2 edge ++ (code ∷ event ∷ bytes2 clock) ++ bytes2 guard) }
{
    [
        36,
        sign,
        low(edge),
        high(edge),
        code,
        event,
        low(clock),
        high(clock),
        low(guard),
        high(guard),
        0,
        0,
        0,
        0,
        0,
        0,
    ]
}

pub fn clock_bytes(timing: u8, ticks: u64) -> [u8; 16]
    ensures { result ≡ record_text 37 (timing ∷ bytes2 ticks) }
{
    [
        37,
        timing,
        (ticks % 256) as u8,
        (ticks / 256 % 256) as u8,
        0,
        0,
        0,
        0,
        0,
        0,
        0,
        0,
        0,
        0,
        0,
        0,
    ]
}

pub fn node_bytes(code: u8, a: u16, b: u16, c: u16, z: u32) -> [u8; 16]
    ensures { result ≡ record_text 39 (code ∷ bytes2 a ++ bytes2 b ++ bytes2 c ++ bytes4 z ++ (0 ∷ 0 ∷ 0 ∷ 0 ∷ [])) }
{
    let lower = (z % 65536) as u16;
    let upper = (z / 65536) as u16;
    [
        39,
        code,
        low(a),
        high(a),
        low(b),
        high(b),
        low(c),
        high(c),
        low(lower),
        high(lower),
        low(upper),
        high(upper),
        0,
        0,
        0,
        0,
    ]
}

pub fn update_bytes(code: u8, edge: u16, x: u8, node: u16, guard: u16) -> [u8; 16]
    ensures { result ≡ record_text 40 (code ∷ bytes2 edge ++ (x ∷ 0 ∷ bytes2 node) ++ bytes2 guard) }
{
    [
        40,
        code,
        low(edge),
        high(edge),
        x,
        0,
        low(node),
        high(node),
        low(guard),
        high(guard),
        0,
        0,
        0,
        0,
        0,
        0,
    ]
}

pub fn reset_bytes(edge: u16, clock: u16) -> [u8; 16]
    ensures { result ≡ record_text 41 (0 ∷ bytes2 edge ++ bytes2 clock) }
{
    [
        41,
        0,
        low(edge),
        high(edge),
        low(clock),
        high(clock),
        0,
        0,
        0,
        0,
        0,
        0,
        0,
        0,
        0,
        0,
    ]
}
