ghost use Rattle.std.specs.Prelude.{◌≡◌, ◌∷◌, map, IfOk, option_map};
ghost use Rattle.rb_base.specs.declared.row.Value.TheVariants.{Num};
ghost use Rattle.rb_text_defs.specs.Words.{all_of, is_empty, number_of};
ghost use Rattle.rb_text_defs.specs.Form.{may_have, op_of, operation_of, value_of};
ghost use Rattle.rb_script.specs.Seen.{operation_seen, word_of};

use crate::word::Word;
use rb_base::{Bytes, NoMemory, Op, Value, Values};
use std::alloc::Global;

/// An operation as a line writes it: the table by its name, and the values. A remove has none.
#[derive(Drop)]
pub(crate) struct Operation<'a> {
    pub(crate) op: Op,
    pub(crate) table: &'a [u8],
    pub(crate) key: u64,
    pub(crate) values: Values,
}

/// Returns the operation that these words say, if they are of its form.
#[tactic(auto, unfolding(rb_text_defs::specs::Form::operation_of))]
pub(crate) fn read_operation<'a>(
    alloc: Global,
    words: &[Word<'a>],
) -> Result<Option<Operation<'a>>, NoMemory>
    ensures { IfOk result (λ operation. option_map operation_seen operation
        ≡ operation_of (map word_of words.now)) }
{
    match words {
        [op, table, key, values @ ..] => whole_operation(alloc, *op, *table, *key, values),
        _ => Ok(None),
    }
}

/// Returns the operation of three words and its values.
#[tactic(auto, unfolding(rb_text_defs::specs::Form::operation_of))]
fn whole_operation<'a>(
    alloc: Global,
    op: Word<'a>,
    table: Word<'a>,
    key: Word<'a>,
    values: &[Word<'a>],
) -> Result<Option<Operation<'a>>, NoMemory>
    ensures { IfOk result (λ operation. option_map operation_seen operation
        ≡ operation_of (word_of op.entry ∷ word_of table.entry ∷ word_of key.entry ∷ map word_of
        values.now)) }
{
    let Some(op) = op_of(op) else {
        return Ok(None);
    };
    let Some(table) = table.name() else {
        return Ok(None);
    };
    let Some(key) = key.number() else {
        return Ok(None);
    };
    let Some(values) = values_of(alloc, values)? else {
        return Ok(None);
    };
    if !may_have(op, &values) {
        return Ok(None);
    }
    Ok(Some(Operation {
        op,
        table,
        key,
        values,
    }))
}

/// Returns the operation that a word names.
#[tactic(auto, unfolding(rb_text_defs::specs::Form::op_of))]
fn op_of(word: Word<'_>) -> Option<Op>
    ensures { result ≡ op_of (word_of word.entry) }
{
    if word.is(b"ins") {
        Some(Op::Ins)
    } else if word.is(b"upd") {
        Some(Op::Upd)
    } else if word.is(b"put") {
        Some(Op::Put)
    } else if word.is(b"del") {
        Some(Op::Del)
    } else {
        None
    }
}

/// Returns whether an operation of this kind may have these values. A remove has none.
fn may_have(op: Op, values: &Values) -> bool
    ensures { result ≡ may_have op values.now }
{
    match op {
        Op::Ins | Op::Upd | Op::Put => true,
        Op::Del => has_none(values.as_slice()),
    }
}

fn has_none(values: &[Value]) -> bool
    ensures { result ≡ is_empty values.now }
{
    match values {
        [] => true,
        _ => false,
    }
}

/// Returns the values that these words say, if each says one.
fn values_of(alloc: Global, words: &[Word<'_>]) -> Result<Option<Values>, NoMemory>
    ensures { IfOk result (λ values. values ≡ all_of (map value_of (map word_of words.now))) }
{
    let mut values = Vec::new(alloc);
    for word in words {
        let Some(value) = value_of(alloc, *word)? else {
            return Ok(None);
        };
        values.push(value)?;
    }
    Ok(Some(Values::from_vec(values)))
}

/// Returns a value: a number or a text.
#[tactic(auto, unfolding(rb_text_defs::specs::Form::value_of))]
fn value_of(alloc: Global, word: Word<'_>) -> Result<Option<Value>, NoMemory>
    ensures { IfOk result (λ value. value ≡ value_of (word_of word.entry)) }
{
    match word {
        Word::Plain(_) => Ok(number_value(word)),
        Word::Quoted(text) => Ok(Some(Value::Text(Bytes::from_vec(Vec::from_slice(alloc, text)?)))),
    }
}

fn number_value(word: Word<'_>) -> Option<Value>
    ensures { result ≡ option_map (λ number. Num number) (number_of (word_of word.entry)) }
{
    match word.number() {
        Some(number) => Some(Value::Num(number)),
        None => None,
    }
}
