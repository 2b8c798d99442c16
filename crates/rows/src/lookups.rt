//! Tables of what has a name.

/// The value with a name.
pub(crate) fn value_named<'t, T>(table: &'t [(&str, T)], name: &str) -> Option<&'t T> {
    for (other, value) in table {
        if *other == name {
            return Some(value);
        }
    }
    None
}

/// The name of a value, empty where it has none.
pub(crate) fn name_of<T: PartialEq>(table: &[(&'static str, T)], value: &T) -> &'static str {
    for (name, other) in table {
        if other == value {
            return name;
        }
    }
    ""
}
