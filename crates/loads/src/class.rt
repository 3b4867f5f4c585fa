ghost use Rattle.std.specs.Prelude.{◌≡◌};
ghost use Rattle.loads.specs.ClassesOf.{class_number, class_bounds, IsClassOf};

use crate::checking::SettingsFault;

/// The accuracy class of a terminal.
#[derive(Clone, Copy, PartialEq, Eq)]
pub enum Class {
    Three,
    Four,
}

/// The bounds of the largest load of a class and its smallest load, in intervals.
#[derive(Clone, Copy)]
pub(crate) struct ClassBounds {
    pub(crate) least: u16,
    pub(crate) most: u16,
    pub(crate) min: u16,
}

// A constant table, by a rule of the project.
/// The bounds of each class.
const CLASSES: [ClassBounds; 2] = [
    ClassBounds {
        least: 500,
        most: 10_000,
        min: 20,
    },
    ClassBounds {
        least: 100,
        most: 1_000,
        min: 10,
    },
];

// No `From` into a number: a class has its own and three bounds, all numbers, and a name says which is meant.
impl Class {
    /// The number of the class, 3 or 4.
    pub fn number(self) -> u8
        ensures { result ≡ class_number self }
    {
        match self {
            Class::Three => 3,
            Class::Four => 4,
        }
    }

    /// The bounds of the class.
    pub(crate) fn bounds(self) -> ClassBounds
        ensures least { result.least ≡ (class_bounds self).least }
        ensures most { result.most ≡ (class_bounds self).most }
        ensures min { result.min ≡ (class_bounds self).min }
    {
        CLASSES[self as usize]
    }
}

/// The class of a number, 3 or 4.
impl TryFrom<u32> for Class {
    type Error = SettingsFault;

    ghost try_from_gives = { IsClassOf };

    fn try_from(number: u32) -> Result<Class, SettingsFault> {
        match number {
            3 => Ok(Class::Three),
            4 => Ok(Class::Four),
            _ => Err(SettingsFault::Class),
        }
    }
}
