//! Lines of warnings with their number.
ghost use Rattle.std.specs.Prelude.{◌≤◌, length};

/// The lines of warnings, and how many they are: no more than there are bytes, since no line is empty.
#[derive(Drop)]
pub struct UnitLines {
    pub text: Vec<u8>,
    pub count: usize,
    pub ghost few: { count ≤ length text.items },
}
