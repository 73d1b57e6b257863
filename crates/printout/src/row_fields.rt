// A row, field by field. A field is put with the comma before it. The words are put as bytes: what a `Display` writes no clause
// can name, and `put_row` promises each byte.
ghost use Rattle.std.specs.Prelude.{◌++◌, ◌+◌, ◌≤◌, length};
ghost use Rattle.record.specs.Words.{act_word};
ghost use Rattle.rules.specs.Answers.{answer_word};
ghost use Rattle.writing.specs.Line.{after_comma};
ghost use Rattle.writing.specs.Put.{Puts};
ghost use Rattle.printout.specs.Row.{process_field, act_field, row_of};

use super::value_fields::{put_numbers, put_optional};
use super::{Row, Who};
use record::Act;
use rules::Answer;
use word::Refusal;
use writing::Writer;

fn put_act(act: Act, out: &mut Writer)
    requires { out.old.len + length (after_comma (act_word act)) ≤ length out.old.bytes.now }
    ensures { Puts out.old (after_comma (act_word act)) out.new }
{
    match act {
        Act::Load => out.put(b",LL"),
        Act::Validate => out.put(b",VL"),
        Act::Store => out.put(b",SC"),
        Act::Step => out.put(b",step"),
    }
}

// Process and act.
fn put_who(who: Who, out: &mut Writer)
    requires { out.old.len + length (after_comma (process_field who) ++ after_comma (act_field who)) ≤ length out.old.bytes.now }
    ensures { Puts out.old (after_comma (process_field who) ++ after_comma (act_field who)) out.new }
{
    match who {
        Who::Nobody => out.put(b",,"),
        Who::SetUp => out.put(b",,setup"),
        Who::Process(process, act) => {
            out.put_number(process);
            put_act(act, out);
        }
    }
}

fn put_answer(answer: Result<Answer, Refusal>, out: &mut Writer)
    requires { out.old.len + length (after_comma (answer_word answer)) ≤ length out.old.bytes.now }
    ensures { Puts out.old (after_comma (answer_word answer)) out.new }
{
    match answer {
        Ok(Answer::Begun) => out.put(b",begun"),
        Ok(Answer::Busy) => out.put(b",busy"),
        Ok(Answer::Value(_)) => out.put(b",value"),
        Ok(Answer::Witness(_)) => out.put(b",witness"),
        Ok(Answer::Yes) => out.put(b",yes"),
        Ok(Answer::No) => out.put(b",no"),
        Err(_) => out.put(b",refused"),
    }
}

// A whole row, from its number to the end of its line.
#[tactic(auto, using(crate::proofs::Rows::length_row))]
pub(crate) fn put_fields(row: Row, out: &mut Writer)
    requires { out.old.len + length (row_of row) ≤ length out.old.bytes.now }
    ensures { Puts out.old (row_of row) out.new }
{
    out.put_decimal(row.number);
    put_who(row.who, out);
    put_answer(row.answer, out);
    put_optional(row.open, out);
    put_numbers(row.answer, row.w, out);
}
