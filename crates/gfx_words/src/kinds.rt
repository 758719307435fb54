// Kinds of things, formats, programs, uniforms and view modes.
ghost use Rattle.std.specs.Prelude.{◌≡◌, IfSome};
ghost use Rattle.std.specs.Option.{option_map};
ghost use Rattle.gfx_model.specs.Views.{fewest_views, most_views};
ghost use Rattle.gfx_model.specs.Words as words;
ghost use Rattle.gfx_words.specs.Kinds.{kind_seen, format_seen, program_seen, uniform_seen};

/// How many views there are in the first version of scenes.
pub const FEWEST_VIEWS: u16 = 256;

/// How many views there are in the second version of scenes.
pub const MOST_VIEWS: u16 = 512;

/// The two numbers of views are those of the definitions.
pub fn view_counts()
    ensures fewest { FEWEST_VIEWS ≡ fewest_views }
    ensures most { MOST_VIEWS ≡ most_views }
{}

/// The kinds of things that handles name.
#[derive(Clone, Copy, Drop, PartialEq, Eq, Debug)]
pub enum Kind {
    Layout,
    VertexBuffer,
    IndexBuffer,
    Texture,
    FrameBuffer,
    Program,
    Uniform,
}

impl Kind {
    /// How many things of this kind there can be at once; its indices lie below.
    pub fn greatest(self) -> u16
        ensures { result ≡ words.greatest (kind_seen self) }
    {
        match self {
            Kind::Layout => 64,
            Kind::VertexBuffer | Kind::IndexBuffer | Kind::Texture => 1024,
            Kind::FrameBuffer => 128,
            Kind::Program | Kind::Uniform => 256,
        }
    }

    /// The place of this kind's index 0 in the table of place words.
    pub fn first_place(self) -> u16
        ensures { result ≡ words.first_place (kind_seen self) }
    {
        match self {
            Kind::Layout => 0,
            Kind::VertexBuffer => 64,
            Kind::IndexBuffer => 1088,
            Kind::Texture => 2112,
            Kind::FrameBuffer => 3136,
            Kind::Program => 3264,
            Kind::Uniform => 3520,
        }
    }

    /// The number of this kind in command bytes, from 0.
    pub fn number(self) -> u8
        ensures { result ≡ words.kind_number (kind_seen self) }
    {
        match self {
            Kind::Layout => 0,
            Kind::VertexBuffer => 1,
            Kind::IndexBuffer => 2,
            Kind::Texture => 3,
            Kind::FrameBuffer => 4,
            Kind::Program => 5,
            Kind::Uniform => 6,
        }
    }

    /// The kind of a number; None exactly where no kind has it.
    pub fn of_number(number: u8) -> Option<Kind>
        ensures same { option_map kind_seen result ≡ words.kind_of_number number }
        ensures back { IfSome result (λ k. words.kind_number (kind_seen k) ≡ number) }
    {
        match number {
            0 => Some(Kind::Layout),
            1 => Some(Kind::VertexBuffer),
            2 => Some(Kind::IndexBuffer),
            3 => Some(Kind::Texture),
            4 => Some(Kind::FrameBuffer),
            5 => Some(Kind::Program),
            6 => Some(Kind::Uniform),
            _ => None,
        }
    }

    /// Whether two kinds are the same.
    pub fn is(self, other: Kind) -> bool
        ensures { result ≡ words.is_kind (kind_seen self) (kind_seen other) }
    {
        self.number() == other.number()
    }
}

/// What a texel of four bytes holds: a colour, or a depth of 24 bits with a stencil of 8.
#[derive(Clone, Copy, Drop, PartialEq, Eq, Debug)]
pub enum Format {
    Rgba8,
    D24S8,
}

impl Format {
    /// The number of this format in command bytes, from 0.
    pub fn number(self) -> u8
        ensures { result ≡ words.format_number (format_seen self) }
    {
        match self {
            Format::Rgba8 => 0,
            Format::D24S8 => 1,
        }
    }

    /// The format of a number; None exactly where none has it.
    pub fn of_number(number: u8) -> Option<Format>
        ensures same { option_map format_seen result ≡ words.format_of_number number }
        ensures back { IfSome result (λ k. words.format_number (format_seen k) ≡ number) }
    {
        match number {
            0 => Some(Format::Rgba8),
            1 => Some(Format::D24S8),
            _ => None,
        }
    }

    /// Whether two formats are the same.
    pub fn is(self, other: Format) -> bool
        ensures { result ≡ words.is_format (format_seen self) (format_seen other) }
    {
        self.number() == other.number()
    }
}

/// What a program paints: the colour uniform, the vertex colour, the sample, or the product of the last two.
#[derive(Clone, Copy, Drop, PartialEq, Eq, Debug)]
pub enum ProgramKind {
    Solid,
    Color,
    Texture,
    TexColor,
}

impl ProgramKind {
    /// The number of this program in command bytes, from 0.
    pub fn number(self) -> u8
        ensures { result ≡ words.program_number (program_seen self) }
    {
        match self {
            ProgramKind::Solid => 0,
            ProgramKind::Color => 1,
            ProgramKind::Texture => 2,
            ProgramKind::TexColor => 3,
        }
    }

    /// The program of a number; None exactly where none has it.
    pub fn of_number(number: u8) -> Option<ProgramKind>
        ensures same { option_map program_seen result ≡ words.program_of_number number }
        ensures back { IfSome result (λ k. words.program_number (program_seen k) ≡ number) }
    {
        match number {
            0 => Some(ProgramKind::Solid),
            1 => Some(ProgramKind::Color),
            2 => Some(ProgramKind::Texture),
            3 => Some(ProgramKind::TexColor),
            _ => None,
        }
    }
}

/// Four numbers of 1/65536, or one whole number.
#[derive(Clone, Copy, Drop, PartialEq, Eq, Debug)]
pub enum UniformKind {
    Vec4,
    Int,
}

impl UniformKind {
    /// The number of this uniform's kind in command bytes, from 0.
    pub fn number(self) -> u8
        ensures { result ≡ words.uniform_number (uniform_seen self) }
    {
        match self {
            UniformKind::Vec4 => 0,
            UniformKind::Int => 1,
        }
    }

    /// The uniform's kind of a number; None exactly where none has it.
    pub fn of_number(number: u8) -> Option<UniformKind>
        ensures same { option_map uniform_seen result ≡ words.uniform_of_number number }
        ensures back { IfSome result (λ k. words.uniform_number (uniform_seen k) ≡ number) }
    {
        match number {
            0 => Some(UniformKind::Vec4),
            1 => Some(UniformKind::Int),
            _ => None,
        }
    }

    /// Whether two kinds of uniforms are the same.
    pub fn is(self, other: UniformKind) -> bool
        ensures { result ≡ words.is_uniform_kind (uniform_seen self) (uniform_seen other) }
    {
        self.number() == other.number()
    }
}

/// A value of a uniform; the four numbers are in units of 1/65536.
#[derive(Clone, Copy, Drop, PartialEq, Eq, Debug)]
pub enum UniformValue {
    Vec4([i32; 4]),
    Int(i32),
}

/// How a view orders its draws and touches.
#[derive(Clone, Copy, Drop, PartialEq, Eq, Debug)]
pub enum ViewMode {
    Default,
    Sequential,
    DepthAscending,
    DepthDescending,
}

/// What a handle tells of its thing beside its kind and index. Sides are in texels.
#[derive(Clone, Copy, Drop, PartialEq, Eq, Debug)]
pub enum Info {
    Plain,
    Texture {
        format: Format,
        blit_dst: bool,
        width: u16,
        height: u16,
    },
    Uniform(UniformKind),
}
