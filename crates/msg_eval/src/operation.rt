//! Arithmetic, comparison and choice.

ghost use Rattle.std.specs.Prelude.{◌≡◌};
ghost use Rattle.msg_eval.specs.Operation.{result_of, numeric_value, are_same, truth, is_no, op_of};

use crate::reply::SendFault;
use msg_names::Value;

// An operation on two values.
#[derive(Clone, Copy)]
pub(crate) enum Operation {
    Add,
    Sub,
    Mul,
    Eq,
    Lt,
}

fn number_of(v: Value) -> Option<i64>
    ensures { result ≡ numeric_value v }
{
    match v {
        Value::Number(n) => Some(n),
        Value::Nil => Some(0),
        Value::Object(_) | Value::Class(_) | Value::Sel(_) => None,
    }
}

fn truth(b: bool) -> Value
    ensures { result ≡ truth b }
{
    if b {
        Value::Number(1)
    } else {
        Value::Number(0)
    }
}

pub(crate) fn are_same(x: Value, y: Value) -> bool
    ensures { result ≡ are_same x y }
{
    match x {
        Value::Number(n) => match y {
            Value::Number(m) => n == m,
            Value::Nil => n == 0,
            _ => false,
        },
        Value::Object(o) => match y {
            Value::Object(p) => o.object == p.object,
            _ => false,
        },
        Value::Class(c) => match y {
            Value::Class(d) => c == d,
            _ => false,
        },
        Value::Sel(s) => match y {
            Value::Sel(t) => s == t,
            _ => false,
        },
        Value::Nil => match y {
            Value::Nil => true,
            Value::Number(m) => m == 0,
            _ => false,
        },
    }
}

// Whether an `if` takes its last part after this value.
pub(crate) fn is_no(v: Value) -> bool
    ensures { result ≡ is_no v }
{
    are_same(v, Value::Nil)
}

// What an operation makes of two values.
pub(crate) fn operate(op: Operation, x: Value, y: Value) -> Result<Value, SendFault>
    ensures { result ≡ result_of (op_of op) x y }
{
    if let Operation::Eq = op {
        return Ok(truth(are_same(x, y)));
    }
    let Some(a) = number_of(x) else {
        return Err(SendFault::NotANumber);
    };
    let Some(b) = number_of(y) else {
        return Err(SendFault::NotANumber);
    };
    match op {
        Operation::Add => match a.checked_add(b) {
            Some(n) => Ok(Value::Number(n)),
            None => Err(SendFault::Overflow),
        },
        Operation::Sub => match a.checked_sub(b) {
            Some(n) => Ok(Value::Number(n)),
            None => Err(SendFault::Overflow),
        },
        Operation::Mul => match a.checked_mul(b) {
            Some(n) => Ok(Value::Number(n)),
            None => Err(SendFault::Overflow),
        },
        Operation::Lt | Operation::Eq => Ok(truth(a < b)),
    }
}
