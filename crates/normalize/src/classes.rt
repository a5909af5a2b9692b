// The classes of modes.
ghost use Rattle.std.specs.Prelude.{◌≡◌, get_or};
ghost use Rattle.normalize.specs.Classes.{class_numbered, class_number, class_name, class_named, class_of, span_of};
ghost use Rattle.tables.specs.Place.{spelled};
ghost use Rattle.tables.specs.declared.ModeClass.TheVariants.{Phone};

use tables::{ModeClass, Name, Span, mode_names, name_in, named_in};

const NAMES: [[u8; 12]; 4] = [
    *b"phone\0\0\0\0\0\0\0",
    *b"cw\0\0\0\0\0\0\0\0\0\0",
    *b"digital\0\0\0\0\0",
    *b"image\0\0\0\0\0\0\0",
];

const LENS: [usize; 4] = [5, 2, 7, 5];

// Each mode's class.
const CLASSES: [ModeClass; 31] = [
    ModeClass::Phone,
    ModeClass::Phone,
    ModeClass::Phone,
    ModeClass::Phone,
    ModeClass::Cw,
    ModeClass::Digital,
    ModeClass::Digital,
    ModeClass::Digital,
    ModeClass::Digital,
    ModeClass::Digital,
    ModeClass::Digital,
    ModeClass::Digital,
    ModeClass::Digital,
    ModeClass::Digital,
    ModeClass::Digital,
    ModeClass::Digital,
    ModeClass::Digital,
    ModeClass::Digital,
    ModeClass::Digital,
    ModeClass::Digital,
    ModeClass::Digital,
    ModeClass::Digital,
    ModeClass::Digital,
    ModeClass::Digital,
    ModeClass::Digital,
    ModeClass::Digital,
    ModeClass::Digital,
    ModeClass::Digital,
    ModeClass::Image,
    ModeClass::Image,
    ModeClass::Image,
];

// The class at k, and `Phone` past the end.
fn class_at(classes: &[ModeClass], k: u32) -> ModeClass
    ensures { result ≡ get_or classes.now k Phone }
{
    classes.get(k as usize).copied().unwrap_or(ModeClass::Phone)
}

#[tactic(auto, unfolding(crate::specs::Classes::class_numbered, crate::specs::Classes::classes))]
pub fn class_numbered(n: u32) -> ModeClass
    ensures { result ≡ class_numbered n }
{
    match n {
        1 => ModeClass::Cw,
        2 => ModeClass::Digital,
        3 => ModeClass::Image,
        _ => ModeClass::Phone,
    }
}

// The class that a text names.
pub fn parse_class(name: &[u8]) -> Option<ModeClass>
    ensures { result ≡ class_named name.now }
{
    let k = named_in(&NAMES, &LENS, text::space::trim(name))?;
    Some(class_numbered(k))
}

// The class of a mode, which is ADIF's own: a submode has none of its own. Unclassed is never a guess.
pub fn mode_class(mode: &[u8]) -> Option<ModeClass>
    ensures { result ≡ class_of mode.now }
{
    let k = named_in(
        &mode_names::NAMES,
        &mode_names::LENS,
        text::space::trim(mode),
    )?;
    Some(class_at(&CLASSES, k))
}

pub fn class_number(class: ModeClass) -> u32
    ensures { result ≡ class_number class }
{
    match class {
        ModeClass::Phone => 0,
        ModeClass::Cw => 1,
        ModeClass::Digital => 2,
        ModeClass::Image => 3,
    }
}

pub fn class_name(class: ModeClass) -> Name
    ensures { result ≡ spelled (class_name class) }
{
    name_in(&NAMES, &LENS, class_number(class) as usize)
}

// The entries of the modes in a class: they stand together in the table.
#[tactic(auto, unfolding(crate::specs::Classes::span_of, crate::specs::Classes::modes_in, tables::specs::Modes::modes))]
pub fn modes_in_class(class: ModeClass) -> Span
    ensures { result ≡ span_of class }
{
    match class {
        ModeClass::Phone => Span { first: 0, count: 4 },
        ModeClass::Cw => Span { first: 4, count: 1 },
        ModeClass::Digital => Span {
            first: 5,
            count: 23,
        },
        ModeClass::Image => Span {
            first: 28,
            count: 3,
        },
    }
}
