// What is wrong with a file of records, and where.
ghost use Rattle.std.specs.Prelude.{◌≡◌};
ghost use Rattle.table.specs.Numbers.{damage_number, fault_number};
ghost use Rattle.table.specs.declared.fault.Layer.TheVariants.{File, Job};

use arithmetic::Refusal;

#[derive(Clone, Copy, PartialEq, Eq, Debug)]
pub struct Fault {
    // the record looked at, 0 where it is the head or the file as a whole; no option, as the 0 is told as it stands
    pub record: u32,
    pub layer: Layer,
}

// A fault of the file itself, or a refusal of the job that it tells.
#[derive(Clone, Copy, PartialEq, Eq, Debug)]
pub enum Layer {
    File(Damage),
    Job(Refusal),
}

#[derive(Clone, Copy, PartialEq, Eq, Hash, Debug)]
pub enum Damage {
    // the length is no multiple of 16, or outside 16 to 16384
    Length = 19,
    // the head tells another number of pairs than the length, or its fourth word is not 0
    Head = 20,
    // the chain leaves the records, does not rise, goes on too long or ends early
    Chain = 21,
    // a residue word is not the empty mark
    Residue = 22,
}

impl Damage {
    pub fn number(self) -> u8
        ensures value { result ≡ damage_number self }
    {
        self as u8
    }
}

impl From<Damage> for Layer {
    ghost from_gives = { λ damage layer. layer ≡ File damage };

    fn from(damage: Damage) -> Layer {
        Layer::File(damage)
    }
}

impl From<Refusal> for Layer {
    ghost from_gives = { λ refusal layer. layer ≡ Job refusal };

    fn from(refusal: Refusal) -> Layer {
        Layer::Job(refusal)
    }
}

impl Fault {
    // What is wrong with the record of that number, or with the head or the file as a whole at 0.
    pub fn at<L: Into<Layer>>(number: u32, cause: L) -> Fault
        ensures number { result.«record» ≡ number }
        ensures layer { L.converts cause result.layer }
    {
        Fault {
            record: number,
            layer: cause.into(),
        }
    }

    pub fn number(self) -> u8
        ensures value { result ≡ fault_number self }
    {
        match self.layer {
            Layer::File(damage) => damage.number(),
            Layer::Job(refusal) => refusal.number(),
        }
    }
}
