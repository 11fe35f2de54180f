//! Values at the keys of a table: which are of another form than they must be, and what the others hold.
use fints_syntax_texts::document::number_between;
use toml::Value;

/// Whether there is an integer outside of low to high.
pub fn is_outside(low: u16, high: u16, value: Option<&Value>) -> bool {
    match value {
        Some(value) => match value {
            Value::Integer(_) => number_between(low, high, value).is_none(),
            _ => false,
        },
        None => false,
    }
}

/// Whether there is a value that is no integer.
pub fn is_no_integer(value: Option<&Value>) -> bool {
    match value {
        None => false,
        Some(Value::Integer(_)) => false,
        Some(_) => true,
    }
}

/// Whether there is a value that is no text.
pub fn is_no_text(value: Option<&Value>) -> bool {
    match value {
        None => false,
        Some(Value::String(_)) => false,
        Some(_) => true,
    }
}

/// Whether there is a value that is neither true nor false.
pub fn is_no_flag(value: Option<&Value>) -> bool {
    match value {
        None => false,
        Some(Value::Boolean(_)) => false,
        Some(_) => true,
    }
}

/// Whether there is a value that is no array.
pub fn is_no_array(value: Option<&Value>) -> bool {
    match value {
        None => false,
        Some(Value::Array(_)) => false,
        Some(_) => true,
    }
}

/// Whether there is a flag that is set.
pub fn is_set(value: Option<&Value>) -> bool {
    match value {
        Some(Value::Boolean(flag)) => *flag,
        _ => false,
    }
}

fn rows_in(value: &Value) -> &[Value] {
    match value {
        Value::Array(rows) => rows.as_slice(),
        _ => &[],
    }
}

/// The entries of an array; none where it is absent.
pub fn rows_of(value: Option<&Value>) -> &[Value] {
    match value {
        Some(value) => rows_in(value),
        None => &[],
    }
}

/// Whether there is a value that is no array, or an empty one.
pub fn is_no_list(value: Option<&Value>) -> bool {
    match value {
        None => false,
        Some(value) => rows_of(Some(value)).is_empty(),
    }
}
