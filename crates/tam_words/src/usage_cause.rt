// What is wrong with the words.
ghost use Rattle.std.specs.Prelude.{◌≡◌};
ghost use Rattle.tam_words.specs.Names.{cause_name};

/// What is wrong with the words of the command line. `ArgsCount` is told by the program, which knows the graph.
///
/// docs/FORMATS.md, "Command line".
#[derive(Clone, Copy, Debug, PartialEq, Eq)]
pub enum UsageCause {
    Words,
    Mode,
    Extra,
    Shape,
    Count,
    Args,
    Order,
    Budget,
    Frames,
    Cells,
    ArgsCount,
}

impl UsageCause {
    /// The cause by its name, as it is printed.
    pub fn name(self) -> &'static [u8]
        ensures value { result.now ≡ cause_name self }
    {
        match self {
            UsageCause::Words => b"Words",
            UsageCause::Mode => b"Mode",
            UsageCause::Extra => b"Extra",
            UsageCause::Shape => b"Shape",
            UsageCause::Count => b"Count",
            UsageCause::Args => b"Args",
            UsageCause::Order => b"Order",
            UsageCause::Budget => b"Budget",
            UsageCause::Frames => b"Frames",
            UsageCause::Cells => b"Cells",
            UsageCause::ArgsCount => b"ArgsCount",
        }
    }
}
