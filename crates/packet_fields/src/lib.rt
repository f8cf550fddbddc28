// What stands in a packet: COM or RES, the command of a number, the information, and the numbers in it.
#![tactic(auto)]

ghost use Rattle.std.specs.Prelude.{◌≡◌, get_or};
ghost use Rattle.numbers.specs.Part.{PartAt};
ghost use Rattle.packet_fields.specs.Fields.{com_of, info_count, info_of, info_at, four_at, info_length};

// The commands.
#[derive(Clone, Copy)]
pub enum Com {
    Inquiry,
    Erase,
    Write,
    Read,
    Authenticate,
    Baud,
    Signature,
    Area,
    Unknown,
}

// Their numbers: COM of a request, RES of what answers it.
pub const INQUIRY: u8 = 0x00;

pub const ERASE: u8 = 0x12;

pub const WRITE: u8 = 0x13;

pub const READ: u8 = 0x15;

pub const AUTHENTICATE: u8 = 0x30;

pub const BAUD: u8 = 0x34;

pub const SIGNATURE: u8 = 0x3A;

pub const AREA: u8 = 0x3B;

// The command of a number.
impl From<u8> for Com {
    ghost from_gives = { λ code cmd. cmd ≡ com_of code };

    #[tactic(auto, unfolding(crate::specs::Fields::com_of, crate::specs::Fields::com_in))]
    fn from(code: u8) -> Com {
        match code {
            INQUIRY => Com::Inquiry,
            ERASE => Com::Erase,
            WRITE => Com::Write,
            READ => Com::Read,
            AUTHENTICATE => Com::Authenticate,
            BAUD => Com::Baud,
            SIGNATURE => Com::Signature,
            AREA => Com::Area,
            _ => Com::Unknown,
        }
    }
}

// How many bytes stand between COM or RES and SUM. Here and below the definitions answer 0 for what is not there, and no answer of the
// device rests on such a 0 (device_steps, proofs/Defaults), so no `Option` is handed on.
pub fn info_count(packet: &[u8]) -> usize
    ensures { result ≡ info_count packet.now }
{
    if packet.len() < 6 {
        return 0;
    }
    packet.len() - 6
}

// A byte of a packet; 0 where it is not there.
pub fn byte_at(packet: &[u8], at: usize) -> u8
    ensures { result ≡ get_or packet.now at 0 }
{
    if at < packet.len() { packet[at] } else { 0 }
}

// The bytes between COM or RES and SUM.
pub fn info(packet: &[u8]) -> &[u8]
    ensures { PartAt packet.entry (info_at packet.now) (info_of packet.now) result }
{
    if packet.len() < 6 {
        return &packet[0..0];
    }
    let end = packet.len() - 2;
    &packet[4..end]
}

// The number in the four bytes from `at` on; 0 where they are not there.
#[tactic(auto, unfolding(crate::specs::Fields::four_at))]
pub fn four_at(packet: &[u8], at: usize) -> u32
    ensures { result ≡ four_at packet.now at }
{
    numbers::read::<u32>(packet, at).unwrap_or(0)
}

// How many bytes of information a command has.
pub fn info_length(cmd: Com) -> usize
    ensures { result ≡ info_length cmd }
{
    match cmd {
        Com::Inquiry => 0,
        Com::Erase => 8,
        Com::Write => 8,
        Com::Read => 8,
        Com::Authenticate => 16,
        Com::Baud => 4,
        Com::Signature => 0,
        Com::Area => 1,
        Com::Unknown => 0,
    }
}
