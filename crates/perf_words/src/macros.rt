// Tables of names.

// Writes the list of a set's named flags, each with the name of its constant.
macro_rules! flag_table {
    ($set:ident: $($flag:ident),+) => {
        &[$(Flag { name: stringify!($flag), value: $set::$flag }),+]
    };
}

pub(crate) use flag_table;

// Writes the list of a type's named values, each with the name of its constant.
macro_rules! name_table {
    ($type:ident: $($value:ident),+) => {
        [$((stringify!($value), $type::$value)),+]
    };
}

pub(crate) use name_table;
