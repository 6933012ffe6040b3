// Where a file breaks a rule that is asked of each record by itself.
#![tactic(auto)]

ghost use Rattle.std.specs.Prelude.{◌≡◌, length};
ghost use Rattle.findings.specs.Found.{test_of, FoundIn};

use chart_files::timing::{ticking, wait_ticks};
use chart_records::Shape;
use chart_records::fields::trigger_of;
use records::byte_at;

// Kinds that are known, refusals 4, 5 and 9 of a chart set; and what 11 asks of the first three in a table. An enum, and no closure for each: the contract of
// `find` names the rule's test (`test_of`), which a closure would have to bring with it.
#[derive(Clone, Copy)]
pub enum Rule {
    SetKinds,
    SetBytes,
    SetCodes,
    SetTicks,
    TableKinds,
    TableBytes,
    TableCodes,
}

// Of a record alone: the trigger of transition 0, and the milliseconds of action 0, behind no other record.
fn ticks(r: &[u8]) -> bool
    ensures { result ≡ test_of Rule.SetTicks r.now }
{
    let none = Shape {
        charts: 0,
        states: 0,
        transitions: 0,
        variables: 0,
        nodes: 0,
        actions: 0,
    };
    let kind = byte_at(r, 0);
    ((kind != 3) | ticking(trigger_of(r, none, 0))) & ((kind != 6) | wait_ticks(r, none, 0))
}

fn passes(rule: Rule, r: &[u8]) -> bool
    requires { length r.now ≡ 16 }
    ensures { result ≡ test_of rule r.now }
{
    let kind = byte_at(r, 0);
    match rule {
        Rule::SetKinds => (1 <= kind) & (kind <= 6),
        Rule::SetBytes => record_tests::unused::record_clean(r),
        Rule::SetCodes => record_tests::codes::in_code(r),
        Rule::SetTicks => ticks(r),
        Rule::TableKinds => (33 <= kind) & (kind <= 41),
        Rule::TableBytes => automata_files::unused::record_clean(r),
        Rule::TableCodes => automata_files::codes::in_code(r),
    }
}

// The first record that breaks the rule.
pub fn find(rule: Rule, s: &[u8]) -> Option<usize>
    ensures { FoundIn (test_of rule) s.now result }
{
    (0..s.len() / 16).find(|&i| !passes(rule, &s[16 * i..16 * i + 16]))
}
