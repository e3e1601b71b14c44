//! Macros in which the rows are written.

/// A field by its name and its width in bits, with the greatest lawful value if not every value is
/// lawful.
macro_rules! field {
    ($name:literal, $width:literal) => {
        field!($name, $width, (1 << $width) - 1)
    };
    ($name:literal, $width:literal, $greatest:expr) => {
        Field {
            name: $name,
            width: $width,
            reserved: false,
            greatest: $greatest,
            signed: false,
        }
    };
}

/// A field whose bits are a number in two's complement.
macro_rules! signed {
    ($name:literal, $width:literal) => {
        Field {
            name: $name,
            width: $width,
            reserved: false,
            greatest: (1 << $width) - 1,
            signed: true,
        }
    };
}

/// Reserved bits.
macro_rules! reserved {
    ($width:literal) => {
        Field {
            name: "R",
            width: $width,
            reserved: true,
            greatest: 0,
            signed: false,
        }
    };
}

/// Exactly one child, of one of the kinds.
macro_rules! one {
    ($($kind:ident),+) => {
        Group {
            members: &[$(ParamKind::$kind),+],
            least: 1,
            most: Some(1),
        }
    };
}

/// One child of the kind or more.
macro_rules! one_or_more {
    ($kind:ident) => {
        Group {
            members: &[ParamKind::$kind],
            least: 1,
            most: None,
        }
    };
}

/// One child of the kind or none.
macro_rules! at_most_one {
    ($kind:ident) => {
        Group {
            members: &[ParamKind::$kind],
            least: 0,
            most: Some(1),
        }
    };
}

/// Children of the kind in any number.
macro_rules! any_number {
    ($kind:ident) => {
        Group {
            members: &[ParamKind::$kind],
            least: 0,
            most: None,
        }
    };
}

/// A parameter with a type and a value alone, by its number, its name and its one field.
macro_rules! tv {
    ($number:literal, $name:literal, $field:expr) => {
        Definition {
            set: KindSet::Profile,
            number: $number,
            name: $name,
            fields: &[$field],
            tail: Tail::Absent,
            groups: &[],
        }
    };
}

/// A parameter with a type and a value alone, by its number, its name and its one field.
macro_rules! whole_tv {
    ($number:literal, $name:literal, $field:expr) => {
        Definition {
            set: KindSet::Standard,
            number: $number,
            name: $name,
            fields: &[$field],
            tail: Tail::Absent,
            groups: &[],
        }
    };
}

/// One child or more, each of one of the kinds.
macro_rules! some_of {
    ($($kind:ident),+) => {
        Group {
            members: &[$(ParamKind::$kind),+],
            least: 1,
            most: None,
        }
    };
}

/// Children of the kinds in any number.
macro_rules! any_of {
    ($($kind:ident),+) => {
        Group {
            members: &[$(ParamKind::$kind),+],
            least: 0,
            most: None,
        }
    };
}

/// A name with its length, and spaces after it.
macro_rules! label {
    ($octets:literal, $text:literal) => {
        Label {
            text: *$text,
            octets: $octets,
        }
    };
}

pub(crate) use any_number;
pub(crate) use any_of;
pub(crate) use at_most_one;
pub(crate) use field;
pub(crate) use label;
pub(crate) use one;
pub(crate) use one_or_more;
pub(crate) use reserved;
pub(crate) use signed;
pub(crate) use some_of;
pub(crate) use tv;
pub(crate) use whole_tv;
