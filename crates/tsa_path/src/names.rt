//! What globals, locals and members are named.
ghost use Rattle.std.specs.Prelude.{◌≡◌, option_map};
ghost use Rattle.tsa_path.specs.Labels.{label};
ghost use Rattle.tsa_path.specs.PathTexts.{Names};

/// What a global, a local or a member is named, and the struct that it is or points to, it or its elements.
#[derive(Clone, Copy, Debug)]
pub struct Named<'n> {
    pub name: &'n [u8],
    pub structure: Option<u32>,
}

/// The names of a unit as a function sees them, by their numbers.
pub trait PathNames {
    /// The names.
    ghost names: { Self → Names };

    /// What a global is named.
    fn global(&self, number: u32) -> Option<Named<'_>>
        ensures { option_map label result ≡ (names self.now).global number };

    /// What a local is named.
    fn local(&self, number: u32) -> Option<Named<'_>>
        ensures { option_map label result ≡ (names self.now).local number };

    /// What a member of a struct is named.
    fn member(&self, structure: u32, number: u32) -> Option<Named<'_>>
        ensures { option_map label result ≡ (names self.now).member structure number };

    /// The struct whose member has the guard that is written, where one is.
    fn owner(&self) -> Option<u32>
        ensures { result ≡ (names self.now).owner };
}
