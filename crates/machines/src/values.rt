// Variables and nodes as a file's records have them, in both formats, and what a node comes to.
ghost use Rattle.std.specs.Prelude.{◌≡◌, map, ◌+◌, ◌*◌, ◌^◌, ◌<◌, pos};
ghost use Rattle.model.specs.Limits.{most_variables};
ghost use Rattle.records.specs.Bytes.{two±};
ghost use Rattle.prelude.specs.Lists.{upto, padded};
ghost use Rattle.expressions.specs.Nodes.{node_of};
ghost use Rattle.expressions.specs.Values.{number, truth};
ghost use Rattle.expressions.specs.Answers.{number_of, truth_of};
ghost use Rattle.model.specs.Runs.{guard_holds};
ghost use Rattle.model.specs.ChartSet.{read_guard, read_plus_one};
ghost use Rattle.machines.specs.Files.{variable_in, node_part, nodes_in, HasValues};

use expressions::outcomes::Reason;
use expressions::values::{number_of, truth_of};
use records::i16_at;
use records::sizes::{VARIABLES, Variables};

// The number of the first variable's record, and the counts; the nodes' records follow the variables'.
#[derive(Clone, Copy)]
pub struct Values {
    pub first: usize,
    pub variables: u16,
    pub nodes: u16,
}

// A field of record n, from its byte k on.
fn i16_in(s: &[u8], n: usize, k: usize) -> i16
    requires { (n < 2 ^ 21) × (k < 16) }
    ensures { result ≡ two± s.now (16 * n + k) }
{
    i16_at(s, 16 * n + k)
}

pub fn lowest_of(s: &[u8], values: Values, v: u16) -> i16
    requires { values.first < 2 ^ 20 }
    ensures { result ≡ (variable_in s.now values v).lowest }
{
    i16_in(s, values.first + (v as usize), 2)
}

pub fn highest_of(s: &[u8], values: Values, v: u16) -> i16
    requires { values.first < 2 ^ 20 }
    ensures { result ≡ (variable_in s.now values v).highest }
{
    i16_in(s, values.first + (v as usize), 4)
}

pub fn start_of(s: &[u8], values: Values, v: u16) -> i16
    requires { values.first < 2 ^ 20 }
    ensures { result ≡ (variable_in s.now values v).start }
{
    i16_in(s, values.first + (v as usize), 6)
}

// A bound of one of the file's variables, from its record's byte k on: in a part that has just its bytes no test for the file's end is left.
pub fn bound_within(s: &[u8], values: Values, v: u8, k: usize) -> i16
    requires { HasValues s.now values × (v < values.variables) × (k < 15) }
    ensures { result ≡ two± s.now (16 * (values.first + v) + k) }
{
    let a = 16 * (values.first + (v as usize)) + k;
    let e = a + 2;
    i16_at(&s[a..e], 0)
}

// The variables of a fresh run.
pub fn start_values(s: &[u8], values: Values) -> Variables
    requires { HasValues s.now values }
    ensures { result ≡ padded most_variables (pos 0) (map (λ v. (variable_in s.now values v).start) (upto values.variables)) }
{
    let mut made = [0i16; VARIABLES];
    for v in 0..values.variables {
        made[v as usize] = start_of(s, values, v);
    }
    made
}

// The part of a file that has the nodes' records, one after the other.
pub fn node_records(s: &[u8], values: Values) -> &[u8]
    requires { HasValues s.now values }
    ensures { result.now ≡ node_part s.now values }
{
    let a = 16 * (values.first + (values.variables as usize));
    let e = a + 16 * (values.nodes as usize);
    &s[a..e]
}

// Node n, as a number and as a truth.
pub fn number_at(s: &[u8], values: Values, vars: &Variables, n: u16) -> Result<i32, Reason>
    requires { HasValues s.now values }
    ensures { number_of result ≡ number (node_of (nodes_in s.now values)) vars.now n }
{
    number_of(node_records(s, values), vars, n)
}

pub fn truth_at(s: &[u8], values: Values, vars: &Variables, n: u16) -> Result<bool, Reason>
    requires { HasValues s.now values }
    ensures { truth_of result ≡ truth (node_of (nodes_in s.now values)) vars.now n }
{
    truth_of(node_records(s, values), vars, n)
}

// A guard that is none holds. The field is tested as the record has it, 65,535 for none: an Option of it would be made by each caller, to be taken apart here.
pub fn guard_holds(s: &[u8], values: Values, vars: &Variables, guard: u16) -> Result<bool, Reason>
    requires { HasValues s.now values }
    ensures { truth_of result ≡ guard_holds (nodes_in s.now values) vars.now (read_guard guard) }
{
    if guard == 65535 {
        Ok(true)
    } else {
        truth_at(s, values, vars, guard)
    }
}

// The guard of an action or update, as its record has it: its node plus one, or 0 for none.
pub fn plus_one_holds(
    s: &[u8],
    values: Values,
    vars: &Variables,
    guard: u16,
) -> Result<bool, Reason>
    requires { HasValues s.now values }
    ensures { truth_of result ≡ guard_holds (nodes_in s.now values) vars.now (read_plus_one guard) }
{
    if guard == 0 {
        Ok(true)
    } else {
        truth_at(s, values, vars, guard - 1)
    }
}
