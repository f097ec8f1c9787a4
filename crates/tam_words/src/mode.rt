// The modes of the program.
ghost use Rattle.std.specs.Prelude.{◌≡◌, find};
ghost use Rattle.std.specs.Str.{bytes_eq};
ghost use Rattle.tam_words.specs.Names.{makes, mode_name, mode_of, reads_file, runs};

/// What the program is to do.
///
/// docs/FORMATS.md, "Command line".
#[derive(Clone, Copy, Debug, PartialEq, Eq)]
pub enum Mode {
    Graph,
    Tl0,
    Rv32,
    Check,
    EmitDg,
    Sets,
    Parts,
    EmitTl0,
    EmitAsm,
    EmitImage,
    Assemble,
    ExecTl0,
    ExecRv32,
    Make,
}

/// Every mode, in the order of `Mode`.
pub const MODES: [Mode; 14] = [
    Mode::Graph,
    Mode::Tl0,
    Mode::Rv32,
    Mode::Check,
    Mode::EmitDg,
    Mode::Sets,
    Mode::Parts,
    Mode::EmitTl0,
    Mode::EmitAsm,
    Mode::EmitImage,
    Mode::Assemble,
    Mode::ExecTl0,
    Mode::ExecRv32,
    Mode::Make,
];

impl Mode {
    /// The word that names the mode.
    #[tactic(auto, unfolding(crate::specs::Names::mode_name))]
    pub fn name(self) -> &'static [u8]
        ensures value { result.now ≡ mode_name self }
    {
        match self {
            Mode::Graph => b"graph",
            Mode::Tl0 => b"tl0",
            Mode::Rv32 => b"rv32",
            Mode::Check => b"check",
            Mode::EmitDg => b"emit-dg",
            Mode::Sets => b"sets",
            Mode::Parts => b"parts",
            Mode::EmitTl0 => b"emit-tl0",
            Mode::EmitAsm => b"emit-asm",
            Mode::EmitImage => b"emit-image",
            Mode::Assemble => b"assemble",
            Mode::ExecTl0 => b"exec-tl0",
            Mode::ExecRv32 => b"exec-rv32",
            Mode::Make => b"make",
        }
    }

    /// Whether the mode makes a run, which options belong to.
    pub fn runs(self) -> bool
        ensures value { result ≡ runs self }
    {
        match self {
            Mode::Graph | Mode::Tl0 | Mode::Rv32 | Mode::ExecTl0 | Mode::ExecRv32 => true,
            Mode::Check
            | Mode::EmitDg
            | Mode::Sets
            | Mode::Parts
            | Mode::EmitTl0
            | Mode::EmitAsm
            | Mode::EmitImage
            | Mode::Assemble
            | Mode::Make => false,
        }
    }

    /// Whether the mode makes its input: a shape stands in the place of the file's name, and a count behind it.
    pub fn makes(self) -> bool
        ensures value { result ≡ makes self }
    {
        match self {
            Mode::Make => true,
            Mode::Graph
            | Mode::Tl0
            | Mode::Rv32
            | Mode::Check
            | Mode::EmitDg
            | Mode::Sets
            | Mode::Parts
            | Mode::EmitTl0
            | Mode::EmitAsm
            | Mode::EmitImage
            | Mode::Assemble
            | Mode::ExecTl0
            | Mode::ExecRv32 => false,
        }
    }

    /// Whether the mode reads the file of its name.
    pub fn reads_file(self) -> bool
        ensures value { result ≡ reads_file self }
    {
        match self {
            Mode::Make => false,
            Mode::Graph
            | Mode::Tl0
            | Mode::Rv32
            | Mode::Check
            | Mode::EmitDg
            | Mode::Sets
            | Mode::Parts
            | Mode::EmitTl0
            | Mode::EmitAsm
            | Mode::EmitImage
            | Mode::Assemble
            | Mode::ExecTl0
            | Mode::ExecRv32 => true,
        }
    }
}

/// The mode that a word names.
#[tactic(auto, unfolding(crate::specs::Names::mode_of))]
pub fn mode_of(word: &[u8]) -> Option<Mode>
    ensures value { result ≡ mode_of word.now }
{
    find_mode(word, &MODES)
}

fn find_mode(word: &[u8], modes: &[Mode]) -> Option<Mode>
    ensures value { result ≡ find (λ mode. bytes_eq word.now (mode_name mode)) modes.now }
{
    let mut rest = modes;
    while let [mode, after @ ..] = rest {
        if is_same(word, mode.name()) {
            return Some(*mode);
        }
        rest = after;
    }
    None
}

fn is_same(first: &[u8], second: &[u8]) -> bool
    ensures value { result ≡ bytes_eq first.now second.now }
{
    first == second
}
