ghost use Rattle.std.specs.Prelude.{◌≡◌, ◌<◌, ◌/◌, ◌^◌, ◌↔◌, IsTrue, IsNone, IfSome, Some};
ghost use Rattle.cany_base.specs.Frame.{FrameParts, class_number, has_incarnation, identifier_of, is_remote};
ghost use Rattle.can_frame.specs.Classes.{class_in, is_of_site, shows_life, tells_incarnation};
ghost use Rattle.can_frame.specs.Decoding.{Carries, IsClassOf};
ghost use Rattle.can_frame.specs.Identifier.{FitsIdentifier};

use cany_base::{Class, Format, Payload};

/// Makes a body from the table of the ten classes. A row is a class, its number in the identifier,
/// the kind of its frames, and what their payload has: no bytes, a vector, or any bytes. Then come
/// the lowest four bits of their identifier: the sender's incarnation, or zero. Last is what they
/// tell of the site: that the node they name lives (`life`), something else of it (`site`), or
/// nothing.
macro_rules! by_class {
    (number of $class:expr) => { by_class!(rows number $class) };
    (class of $number:expr) => { by_class!(rows class $number) };
    (kind of $class:expr) => { by_class!(rows kind $class) };
    (incarnation of $class:expr) => { by_class!(rows incarnation $class) };
    (life of $class:expr) => { by_class!(rows life $class) };
    (site of $class:expr) => { by_class!(rows site $class) };
    (lengths of $class:expr, has $len:expr, vector $vector:expr) => {
        by_class!(rows lengths ($class, $len, $vector))
    };
    (rows $column:ident $value:tt) => {
        by_class!($column $value:
            Accept = 0 remote none zero nothing,
            Rha = 1 data vector stamped life,
            Els = 2 remote none stamped life,
            Fda = 3 remote none zero site,
            Join = 4 remote none stamped site,
            Leave = 5 remote none stamped site,
            Confirm = 6 remote none zero nothing,
            Tot = 7 data any zero life,
            Rel = 8 data any zero nothing,
            Ed = 9 data any zero nothing,
        )
    };
    (number $class:tt: $($name:ident = $number:literal $kind:ident $bytes:ident $low:ident $tells:ident,)*) => {
        match $class { $(Class::$name => $number,)* }
    };
    (class $value:tt: $($name:ident = $number:literal $kind:ident $bytes:ident $low:ident $tells:ident,)*) => {
        match $value { $($number => Some(Class::$name),)* _ => None }
    };
    (kind $class:tt: $($name:ident = $number:literal $kind:ident $bytes:ident $low:ident $tells:ident,)*) => {
        match $class { $(Class::$name => by_class!($kind is remote),)* }
    };
    (incarnation $class:tt: $($name:ident = $number:literal $kind:ident $bytes:ident $low:ident $tells:ident,)*) => {
        match $class { $(Class::$name => by_class!($low is incarnation),)* }
    };
    (life $class:tt: $($name:ident = $number:literal $kind:ident $bytes:ident $low:ident $tells:ident,)*) => {
        match $class { $(Class::$name => by_class!($tells is life),)* }
    };
    (site $class:tt: $($name:ident = $number:literal $kind:ident $bytes:ident $low:ident $tells:ident,)*) => {
        match $class { $(Class::$name => by_class!($tells is site),)* }
    };
    (lengths ($class:expr, $len:expr, $vector:expr): $($name:ident = $number:literal $kind:ident $bytes:ident $low:ident $tells:ident,)*) => {
        match $class { $(Class::$name => by_class!($bytes in $len, $vector),)* }
    };
    (remote is remote) => { true };
    (data is remote) => { false };
    (stamped is incarnation) => { true };
    (zero is incarnation) => { false };
    (life is life) => { true };
    ($tells:ident is life) => { false };
    (nothing is site) => { false };
    ($tells:ident is site) => { true };
    (none in $len:expr, $vector:expr) => { $len == 0 };
    (vector in $len:expr, $vector:expr) => { $len == $vector };
    (any in $len:expr, $vector:expr) => { true };
}

/// The number of a class in the identifier.
pub(crate) fn number_of_class(class: Class) -> u32
    ensures { result ≡ class_number class }
{
    by_class!(number of class)
}

/// The class of this number.
fn class_of_number(number: u32) -> Option<Class>
    ensures none { IsNone result ↔ (9 < number) }
    ensures found { IfSome result (λ class. class_number class ≡ number) }
{
    by_class!(class of number)
}

/// The class that stands in an identifier. Where a bit above the lowest 29 is set there is none.
///
/// Promise: the class of the number that stands in the bits above the lowest 25. Of the identifier
/// of a frame it is the frame's class.
///
/// Answers: `None` exactly where this number is above 9.
///
/// Shown by: `frames_of_every_class`, `refusals`, `bits_above_the_identifier_are_ignored`.
pub fn class_of(ident: u32) -> Option<Class>
    ensures class { result ≡ class_in ident }
    ensures none { IsNone result ↔ (9 < ident / 2 ^ 25) }
    ensures found { IfSome result (λ class. IsClassOf class ident) }

    // Of the identifier of a frame it is the frame's.
    ensures of_frame { (format : Format) (f : FrameParts) → FitsIdentifier format f →
        identifier_of format f ≡ ident → result ≡ Some f.class }
{
    class_of_number(ident >> 25)
}

/// Whether the frames of a class are remote frames, which send RTR recessive and carry no bytes.
///
/// Promise: whether the table of classes says that frames of the class are remote frames.
///
/// Answers: `true` exactly for ACCEPT, ELS, FDA, JOIN, LEAVE and CONFIRM.
///
/// Shown by: `frames_of_every_class`, `failure_sign_is_a_data_frame`.
pub fn is_remote(class: Class) -> bool
    ensures { result ≡ is_remote class }
{
    by_class!(kind of class)
}

/// Whether the frames of a class tell the incarnation of their sender, in the lowest four bits of
/// their identifier.
///
/// Promise: whether the table of classes says that frames of the class tell an incarnation.
///
/// Answers: `true` exactly for RHA, ELS, JOIN and LEAVE.
///
/// Shown by: `frames_of_every_class`.
pub fn has_incarnation(class: Class) -> bool
    ensures { result ≡ has_incarnation class }
{
    by_class!(incarnation of class)
}

/// Whether an identifier is of a class whose frames tell the incarnation of their sender.
///
/// Promise: whether the class that stands in the identifier is one whose frames tell an
/// incarnation. Of the identifier of a frame this is as the frame's class has it.
///
/// Answers: `true` exactly where the class is RHA, ELS, JOIN or LEAVE.
///
/// Shown by: `frames_of_every_class`.
pub fn tells_incarnation(ident: u32) -> bool
    ensures value { result ≡ tells_incarnation ident }

    // Of the identifier of a frame it is as the frame's class has it.
    ensures of_frame { (format : Format) (f : FrameParts) → FitsIdentifier format f →
        identifier_of format f ≡ ident → result ≡ has_incarnation f.class }
{
    match class_of(ident) {
        Some(class) => has_incarnation(class),
        None => false,
    }
}

/// Whether a frame of the class shows that the node lives which it names.
///
/// Promise: whether the table of classes says that a frame of the class shows life.
///
/// Answers: `true` exactly for RHA, ELS and the data of TOTCAN.
///
/// Shown by: `stopped_node_is_removed`.
pub fn shows_life(class: Class) -> bool
    ensures { result ≡ shows_life class }
{
    by_class!(life of class)
}

/// Whether a frame of the class tells of the site: of a life, a failure, an ask to join or to
/// leave, or a vector. The data of TOTCAN does, since it shows that its node lives.
///
/// Promise: whether the table of classes says so of the class.
///
/// Answers: `true` exactly for RHA, ELS, FDA, JOIN, LEAVE and the data of TOTCAN.
///
/// Shown by: `stopped_node_is_removed`.
pub fn is_of_site(class: Class) -> bool
    ensures { result ≡ is_of_site class }
{
    by_class!(site of class)
}

/// Whether the frames of a class carry such a payload in a format.
pub(crate) fn fits_class(format: Format, class: Class, payload: &Payload) -> bool
    ensures { IsTrue result ↔ Carries format class payload.now }
{
    let len = payload.len();
    let vector = format.vector_len();
    by_class!(lengths of class, has len, vector vector)
}
