// One channel of the controller.
ghost use Rattle.std.specs.Prelude.{◌≡◌};
ghost use Rattle.dma.specs.Channels.{settings, counter, busy, draining, listens, made_due, captures, misses};
ghost use Rattle.dma.specs.Raises.{asked};

use memory::place::Space;
use registers::control::{Settings, Shape, Spaces, TransferMode};
use registers::counter::{Counter, Layout};
use registers::update::Update;

// What a channel holds. After reset all of it is zero and false.
#[derive(Clone, Copy, PartialEq, Eq, Debug, Default)]
pub struct Row {
    // DSR and DDR: where the next word comes from and goes to.
    pub source: u32,
    pub destination: u32,
    // DCO: what is left of the block, and what each block starts from.
    pub count: u32,
    pub preload: u32,
    // DCR.
    pub control: u32,
    // How many words were requested and have not moved.
    pub due: u32,
    // The done bit DTD is 0.
    pub active: bool,
    // An interrupt is requested.
    pub requested: bool,
    // A service of the interrupt is open.
    pub serving: bool,
}

// The settings of a control word of 0, which no row needs: no channel has a reserved setting.
const AT_RESET: Settings = Settings {
    enabled: false,
    interrupts: false,
    mode: TransferMode::Block,
    priority: 0,
    continuous: false,
    request: 0,
    shape: Shape {
        source: Update::TwoDimensional(0),
        destination: Update::TwoDimensional(0),
        layout: Layout::B,
    },
    spaces: Spaces {
        source: Space::X,
        destination: Space::X,
    },
};

impl Row {
    // Called for every channel at every request, by callers that use a few fields: inlined, the compiler drops what they do not use.
    #[inline(always)]
    pub fn settings(&self) -> Settings
        ensures value { result ≡ settings self.now }
    {
        Settings::try_from(self.control).unwrap_or(AT_RESET)
    }

    pub fn counter(&self) -> Counter
        ensures value { result ≡ counter self.now }
    {
        self.counter_of(self.settings().shape.layout)
    }

    // The counter by a layout that has been decoded already.
    fn counter_of(&self, layout: Layout) -> Counter
        ensures value { result ≡ record { layout = layout; preload = self.now.preload; count = self.now.count } }
    {
        Counter {
            layout,
            preload: self.preload,
            count: self.count,
        }
    }

    // DE is 1, or the done bit is 0.
    pub fn busy(&self) -> bool
        ensures value { result ≡ busy self.now }
    {
        self.settings().enabled || self.active
    }

    // Busy with DE 0.
    pub fn draining(&self) -> bool
        ensures value { result ≡ draining self.now }
    {
        !self.settings().enabled && self.active
    }

    // DE is 1, the channel is not one that setting DE starts, and it has that source.
    pub fn listens(&self, source: u8) -> bool
        ensures value { result ≡ listens source self.now }
    {
        let settings = self.settings();
        settings.enabled
            && settings.mode != TransferMode::BlockByEnable
            && settings.request == source
    }

    // What a request makes due: a word, the rest of the line or the rest of the block.
    pub fn made_due(&self) -> u32
        ensures value { result ≡ made_due self.now }
    {
        let settings = self.settings();
        let layout = settings.shape.layout;
        match settings.mode {
            TransferMode::Word | TransferMode::WordKeepingEnable => 1,
            TransferMode::Line => layout.line_length(self.count),
            TransferMode::Block | TransferMode::BlockByEnable | TransferMode::BlockKeepingEnable =>
                self.counter_of(layout).words_left(),
        }
    }

    // A request of a source makes words due if the channel listens to it and has none due.
    pub fn ask(&mut self, source: u8)
        ensures after { self.new ≡ asked source self.old }
    {
        if self.captures(source) {
            self.due = self.made_due();
        }
    }

    pub fn captures(&self, source: u8) -> bool
        ensures value { result ≡ captures source self.now }
    {
        self.listens(source) && self.due == 0
    }

    pub fn misses(&self, source: u8) -> bool
        ensures value { result ≡ misses source self.now }
    {
        self.listens(source) && self.due > 0
    }
}
