// Packed commands of the walk: PointCommand of path.rs.
#![tactic(auto)]

ghost use Rattle.std.specs.Prelude.{◌≡◌};
ghost use Rattle.command.specs.Packing.{pack_of, unpack_of};

#[derive(Clone, Copy)]
pub enum PointCommand {
    // A new line begins at the first point of this spline.
    Start(usize),
    // A step of this size along the spline.
    Incr(f32),
    // The last point of this spline, flagged where its contour ends.
    End(usize, bool),
}

impl PointCommand {
    // Spline numbers are below the limit; the mask keeps their 22 bits, and the flag is the bit above them.
    pub const INDEX_LIMIT: usize = 0x40_0000;

    pub const INDEX_MASK: u32 = 0x3f_ffff;

    pub const FLAG_BIT: u32 = 0x40_0000;

    // What marks a Start and an End: the bits of the infinities, which no step has.
    const START_WORD: u32 = 0x7f80_0000;

    const END_WORD: u32 = 0xff80_0000;

    const SIGN_BIT: u32 = 0x8000_0000;
}

impl From<PointCommand> for u32 {
    ghost from_gives = { λ command word. word ≡ pack_of command };

    // An index is masked, as in the Rust; no accepted drawing has one at the limit.
    fn from(command: PointCommand) -> Self {
        match command {
            PointCommand::Start(i) => {
                let index = (i % PointCommand::INDEX_LIMIT) as u32;
                index | PointCommand::START_WORD
            }
            PointCommand::Incr(step) => leaves::bits(step),
            PointCommand::End(i, flag) => {
                let index = (i % PointCommand::INDEX_LIMIT) as u32;
                let word = index | PointCommand::END_WORD;
                if flag {
                    word | PointCommand::FLAG_BIT
                } else {
                    word
                }
            }
        }
    }
}

impl From<u32> for PointCommand {
    ghost from_gives = { λ word command. command ≡ unpack_of word };

    // Every word is a command: 7FC00000, which is never written, reads as Start 0.
    fn from(word: u32) -> Self {
        let mark = word & Self::START_WORD;
        if mark != Self::START_WORD {
            let step = f32::from_bits(word);
            return Self::Incr(step);
        }
        let index = (word & Self::INDEX_MASK) as usize;
        let sign = word & Self::SIGN_BIT;
        if sign == 0 {
            return Self::Start(index);
        }
        let flag = word & Self::FLAG_BIT;
        Self::End(index, flag != 0)
    }
}
