// Parses a line to an order. The first word names the order, and the others must have exactly its form.
ghost use Rattle.std.specs.Prelude.{◌≡◌, ◌≢◌, ◌⊎◌, true, false, ℕ, ◌+◌, ◌-◌, ◌*◌, ◌<◌, codes, length, IfErr};
ghost use Rattle.std.specs.Prelude.{IfSome, Ok, []};
ghost use Rattle.std.specs.Option.{SomeIff};
ghost use Rattle.ar_language.specs.Blocks.{read_10_block, read_16_block, write_10_block, write_16_block};
ghost use Rattle.ar_numbers.specs.Numbers.{IsDecimal, size_sectors};
ghost use Rattle.ar_language.specs.Forms.{word, value, IsNumberOf, AreAddress, IsAddress, NamesUnit, HasUnit};
ghost use Rattle.ar_language.specs.Forms.{HasUnitAndNumber, HasUnitAndSize, HasSectors, HasSectorsAndByte};
ghost use Rattle.ar_language.specs.Forms.{HasCommandBlock};
ghost use Rattle.ar_language.specs.Forms.{HasRowAddress, HasDisk, Gives, ReadsOrder, ReadsUnitOrder, ReadsArrayOrder};
ghost use Rattle.ar_language.specs.Forms.{ReadsNamed, ReadsLine, empty_data};
ghost use Rattle.ar_language.specs.Parts.{AreSpan, IsSpan, NamesSpan, SaysWritten, AreData, IsData, AreBlock};
ghost use Rattle.ar_language.specs.Parts.{AsksBlockWith};
ghost use Rattle.ar_language.specs.Forms.{AsksMake, AsksGrow, AsksDrop, AsksUnmap, AsksTur, AsksInquiry, AsksCapacity};
ghost use Rattle.ar_language.specs.Forms.{AsksRead, AsksWrite, AsksBlock, AsksLevels, AsksHome, AsksRow, AsksOut};
ghost use Rattle.ar_language.specs.Forms.{AsksReplace};
ghost use Rattle.ar_language.specs.Forms.{IsDisk};

use crate::order::{Action, Data, Notation, Order, Question};
use crate::{FaultKind, blocks, words};
use ar_disks::{Addr, Host, SECTOR_LEN};
use ar_numbers::number;

const NO_DATA: Data = Data { len: 0, byte: 0 };

// Consecutive sectors of a unit.
#[derive(Clone, Copy)]
struct Span {
    addr: Addr,
    lba: u64,
    count: u16,
}

// A write of one byte value to sectors, with FORCE UNIT ACCESS or without.
#[derive(Clone, Copy)]
struct Written {
    span: Span,
    byte: u8,
    fua: bool,
}

/// Parses a line; an empty one and one that begins with `#` ask for nothing. The errors are `UnknownWord` and
/// `BadArgument`. It allocates nothing.
pub fn order_in(line: &str) -> Result<Option<Order>, FaultKind>
    ensures reads { ReadsLine line.now result }
    ensures few { IfErr result (λ kind. (kind ≡ FaultKind.UnknownWord) ⊎ (kind ≡ FaultKind.BadArgument)) }
{
    if line.is_empty() || line.starts_with('#') {
        return Ok(None);
    }
    let mut words = [""; words::MOST_WORDS];
    let Some(count) = words::first_words(line, &mut words) else {
        return Err(FaultKind::BadArgument);
    };
    order_in_words(&words[..count])
}

// Parses the words of a line.
fn order_in_words(words: &[&str]) -> Result<Option<Order>, FaultKind>
    ensures reads { ReadsNamed words.now result }
    ensures few { IfErr result (λ kind. (kind ≡ FaultKind.UnknownWord) ⊎ (kind ≡ FaultKind.BadArgument)) }
{
    match words.split_first() {
        Some((name, arguments)) => named_order(name, arguments).map(Some),
        None => Ok(None),
    }
}

// Parses the arguments of the order with this name. A line of one word that occurs often is compared with one name.
fn named_order(name: &str, arguments: &[&str]) -> Result<Order, FaultKind>
    ensures reads { ReadsOrder name.now arguments.now result }
    ensures few { IfErr result (λ kind. (kind ≡ FaultKind.UnknownWord) ⊎ (kind ≡ FaultKind.BadArgument)) }
{
    if !arguments.is_empty() {
        return order_of(name, arguments);
    }
    match frequent_order(name) {
        Some(order) => Ok(order),
        None => order_of(name, arguments),
    }
}

// The order of one word with this name, if it is one of those that occur often.
fn frequent_order(name: &str) -> Option<Order>
    ensures { IfSome result (λ order. ReadsOrder name.now [] (Ok order)) }
{
    let (frequent, order) = frequent_with(name.as_bytes().first().copied()?)?;
    if name == frequent { Some(order) } else { None }
}

// The name that begins with this byte of an order of one word that occurs often, and the order.
fn frequent_with(first: u8) -> Option<(&'static str, Order)>
    ensures { IfSome result (λ named. ReadsOrder named.0.now [] (Ok named.1)) }
{
    match first {
        b'd' => Some(("demote", Order::Act(Action::Demote))),
        b'c' => Some(("clean", Order::Act(Action::Clean))),
        b'f' => Some(("flush", Order::Act(Action::Flush))),
        b'b' => Some(("balance", Order::Act(Action::Balance))),
        b'r' => Some(("rebuild", Order::Act(Action::Rebuild))),
        _ => None,
    }
}

// Parses the arguments of the order with this name. (Three functions with a few names each, since a match costs the
// proof more than by the number of its arms. The names that occur most often are compared first.)
fn order_of(name: &str, arguments: &[&str]) -> Result<Order, FaultKind>
    ensures reads { ReadsOrder name.now arguments.now result }
    ensures few { IfErr result (λ kind. (kind ≡ FaultKind.UnknownWord) ⊎ (kind ≡ FaultKind.BadArgument)) }
{
    let order = match name {
        "read" => read(arguments),
        "write" => write(arguments),
        "read16" => read_16(arguments),
        "write16" => write_16(arguments),
        "tur" => test_unit_ready(arguments),
        "inquiry" => inquiry(arguments),
        "capacity" => capacity(arguments),
        "cdb" => command_block(arguments),
        _ => return unit_order_of(name, arguments),
    };
    order.ok_or(FaultKind::BadArgument)
}

// The same for the name of an action on a unit, or one of `array_order_of`.
fn unit_order_of(name: &str, arguments: &[&str]) -> Result<Order, FaultKind>
    ensures reads { ReadsUnitOrder name.now arguments.now result }
    ensures few { IfErr result (λ kind. (kind ≡ FaultKind.UnknownWord) ⊎ (kind ≡ FaultKind.BadArgument)) }
{
    let order = match name {
        "make" => make(arguments),
        "grow" => grow(arguments),
        "drop" => remove(arguments),
        "unmap" => unmap(arguments),
        _ => return array_order_of(name, arguments),
    };
    order.ok_or(FaultKind::BadArgument)
}

// The same for the name of an action on the whole array, or of a query.
fn array_order_of(name: &str, arguments: &[&str]) -> Result<Order, FaultKind>
    ensures reads { ReadsArrayOrder name.now arguments.now result }
    ensures few { IfErr result (λ kind. (kind ≡ FaultKind.UnknownWord) ⊎ (kind ≡ FaultKind.BadArgument)) }
{
    let order = match name {
        "flush" => alone(arguments, Order::Act(Action::Flush)),
        "demote" => alone(arguments, Order::Act(Action::Demote)),
        "clean" => alone(arguments, Order::Act(Action::Clean)),
        "balance" => alone(arguments, Order::Act(Action::Balance)),
        "add" => alone(arguments, Order::Act(Action::AddDisk)),
        "out" => disk_out(arguments),
        "replace" => replace(arguments),
        "rebuild" => alone(arguments, Order::Act(Action::Rebuild)),
        "levels" => levels(arguments),
        "home" => home(arguments),
        "groups" => alone(arguments, Order::Ask(Question::Groups)),
        "room" => alone(arguments, Order::Ask(Question::Room)),
        "health" => alone(arguments, Order::Ask(Question::Health)),
        "picture" => alone(arguments, Order::Ask(Question::Picture)),
        "block" => block(arguments),
        _ => return Err(FaultKind::UnknownWord),
    };
    order.ok_or(FaultKind::BadArgument)
}

fn make(arguments: &[&str]) -> Option<Order>
    ensures { Gives (HasUnitAndSize arguments.now) (AsksMake arguments.now) result }
{
    let (addr, sectors) = unit_and_size(arguments)?;
    Some(Order::Act(Action::Make(addr, sectors)))
}

fn grow(arguments: &[&str]) -> Option<Order>
    ensures { Gives (HasUnitAndSize arguments.now) (AsksGrow arguments.now) result }
{
    let (addr, sectors) = unit_and_size(arguments)?;
    Some(Order::Act(Action::Grow(addr, sectors)))
}

fn remove(arguments: &[&str]) -> Option<Order>
    ensures { Gives (HasUnit arguments.now) (AsksDrop arguments.now) result }
{
    let addr = unit(arguments)?;
    Some(Order::Act(Action::Remove(addr)))
}

fn unmap(arguments: &[&str]) -> Option<Order>
    ensures { Gives (HasSectors 32 IsDecimal arguments.now) (AsksUnmap arguments.now) result }
{
    let [host, lun, lba, count] = arguments else {
        return None;
    };
    let addr = address(host, lun)?;
    let lba = number(lba)?;
    let count = number_32(count)?;
    Some(Order::Act(Action::Unmap(addr, lba, count)))
}

fn test_unit_ready(arguments: &[&str]) -> Option<Order>
    ensures { Gives (HasUnit arguments.now) (AsksTur arguments.now) result }
{
    let addr = unit(arguments)?;
    Some(command(addr, blocks::test_unit_ready()))
}

fn inquiry(arguments: &[&str]) -> Option<Order>
    ensures { Gives (HasUnitAndNumber 16 arguments.now) (AsksInquiry arguments.now) result }
{
    let (addr, len) = unit_and_number(arguments)?;
    let len = u16::try_from(len).ok()?;
    Some(command(addr, blocks::inquiry(len)))
}

fn capacity(arguments: &[&str]) -> Option<Order>
    ensures { Gives (HasUnit arguments.now) (AsksCapacity arguments.now) result }
{
    let addr = unit(arguments)?;
    Some(command(addr, blocks::read_capacity()))
}

fn read(arguments: &[&str]) -> Option<Order>
    ensures { Gives (HasSectors 16 (IsNumberOf 32) arguments.now) (AsksRead read_10_block arguments.now) result }
{
    let span = sectors(arguments)?;
    let lba = u32::try_from(span.lba).ok()?;
    let cdb = blocks::read_10(lba, span.count);
    Some(reading(span.addr, cdb))
}

fn read_16(arguments: &[&str]) -> Option<Order>
    ensures { Gives (HasSectors 16 IsDecimal arguments.now) (AsksRead read_16_block arguments.now) result }
{
    let span = sectors(arguments)?;
    let cdb = blocks::read_16(span.lba, span.count);
    Some(reading(span.addr, cdb))
}

fn write(arguments: &[&str]) -> Option<Order>
    ensures { Gives (HasSectorsAndByte (IsNumberOf 32) arguments.now) (AsksWrite write_10_block arguments.now) result }
{
    let to = written_in(arguments)?;
    let lba = u32::try_from(to.span.lba).ok()?;
    let cdb = blocks::write_10(lba, to.span.count, to.fua);
    Some(writing(to.span, cdb, to.byte))
}

fn write_16(arguments: &[&str]) -> Option<Order>
    ensures { Gives (HasSectorsAndByte IsDecimal arguments.now) (AsksWrite write_16_block arguments.now) result }
{
    let to = written_in(arguments)?;
    let cdb = blocks::write_16(to.span.lba, to.span.count, to.fua);
    Some(writing(to.span, cdb, to.byte))
}

// Parses the arguments of a READ: the sectors that it transfers.
fn sectors(arguments: &[&str]) -> Option<Span>
    ensures { Gives (HasSectors 16 IsDecimal arguments.now) (NamesSpan arguments.now) result }
{
    let [host, lun, lba, count] = arguments else {
        return None;
    };
    span_in(host, lun, lba, count)
}

// Parses the arguments of a WRITE.
fn written_in(arguments: &[&str]) -> Option<Written>
    ensures { Gives (HasSectorsAndByte IsDecimal arguments.now) (SaysWritten arguments.now) result }
{
    let (fua, arguments) = force_unit_access(arguments);
    let [host, lun, lba, count, byte] = arguments else {
        return None;
    };
    let span = span_in(host, lun, lba, count)?;
    let byte = words::byte(byte)?;
    Some(Written { span, byte, fua })
}

fn span_in(host: &str, lun: &str, lba: &str, count: &str) -> Option<Span>
    ensures { Gives (AreSpan host.now lun.now lba.now count.now) (IsSpan host.now lun.now lba.now count.now) result }
{
    let addr = address(host, lun)?;
    let lba = number(lba)?;
    let count = number_16(count)?;
    Some(Span { addr, lba, count })
}

fn command_block(arguments: &[&str]) -> Option<Order>
    ensures { Gives (HasCommandBlock arguments.now) (AsksBlock arguments.now) result }
{
    match arguments {
        [host, lun, block] => block_with(host, lun, block, NO_DATA),
        [host, lun, block, count, byte] => block_with(host, lun, block, data(count, byte)?),
        _ => None,
    }
}

// A command with the block that a word gives, and with its data.
fn block_with(host: &str, lun: &str, block: &str, data: Data) -> Option<Order>
    ensures { Gives (AreBlock host.now lun.now block.now) (AsksBlockWith host.now lun.now block.now «data») result }
{
    let addr = address(host, lun)?;
    let cdb = words::block(block)?;
    Some(Order::Act(Action::Command {
        addr,
        cdb,
        data,
        notation: Notation::Bytes,
    }))
}

// Data of `count` bytes, each of them `byte`.
fn data(count: &str, byte: &str) -> Option<Data>
    ensures { Gives (AreData count.now byte.now) (IsData count.now byte.now) result }
{
    let len = u32::from(number_16(count)?);
    let byte = words::byte(byte)?;
    Some(Data { len, byte })
}

fn disk_out(arguments: &[&str]) -> Option<Order>
    ensures { Gives (HasDisk arguments.now) (AsksOut arguments.now) result }
{
    Some(Order::Act(Action::DiskOut(disk_number(arguments)?)))
}

fn replace(arguments: &[&str]) -> Option<Order>
    ensures { Gives (HasDisk arguments.now) (AsksReplace arguments.now) result }
{
    Some(Order::Act(Action::Replace(disk_number(arguments)?)))
}

// Parses the number of a disk, and nothing more.
fn disk_number(arguments: &[&str]) -> Option<u8>
    ensures { Gives (HasDisk arguments.now) (IsDisk arguments.now) result }
{
    let [disk] = arguments else {
        return None;
    };
    number_8(disk)
}

fn levels(arguments: &[&str]) -> Option<Order>
    ensures { Gives (HasUnit arguments.now) (AsksLevels arguments.now) result }
{
    let addr = unit(arguments)?;
    Some(Order::Ask(Question::Levels(addr)))
}

fn home(arguments: &[&str]) -> Option<Order>
    ensures { Gives (HasUnitAndNumber 32 arguments.now) (AsksHome arguments.now) result }
{
    let (addr, rb) = unit_and_number(arguments)?;
    Some(Order::Ask(Question::Home(addr, rb)))
}

fn block(arguments: &[&str]) -> Option<Order>
    ensures { Gives (HasRowAddress arguments.now) (AsksRow arguments.now) result }
{
    let [disk, extent, row] = arguments else {
        return None;
    };
    Some(Order::Ask(Question::Block {
        disk: number_8(disk)?,
        extent: number_16(extent)?,
        row: number_16(row)?,
    }))
}

// An order without arguments.
fn alone(arguments: &[&str], order: Order) -> Option<Order>
    ensures { Gives (length arguments.now ≡ 0) (λ given. given ≡ order) result }
{
    arguments.is_empty().then_some(order)
}

// Whether the last argument is `fua`, for FORCE UNIT ACCESS, and the arguments without it.
fn force_unit_access<'a, 'b>(arguments: &'a [&'b str]) -> (bool, &'a [&'b str])
    ensures forced { result.0 ≡ true → (length arguments.now ≡ length result.1.now + 1)
        × (word arguments.now (length result.1.now) ≡ codes "fua") }
    ensures others { (i : ℕ) → i < length result.1.now → word result.1.now i ≡ word arguments.now i }
    ensures plain { result.0 ≡ false → (length arguments.now ≡ length result.1.now)
        × (word arguments.now (length arguments.now - 1) ≢ codes "fua") }
{
    match arguments {
        [others @ .., "fua"] => (true, others),
        _ => (false, arguments),
    }
}

// A command without data, whose reply is printed byte by byte.
fn command(addr: Addr, cdb: [u8; 16]) -> Order
    ensures { result ≡ Order.Act (Action.Command addr cdb empty_data Notation.Bytes) }
{
    Order::Act(Action::Command {
        addr,
        cdb,
        data: NO_DATA,
        notation: Notation::Bytes,
    })
}

// A command that reads sectors, which are printed as runs.
fn reading(addr: Addr, cdb: [u8; 16]) -> Order
    ensures { result ≡ Order.Act (Action.Command addr cdb empty_data Notation.Runs) }
{
    Order::Act(Action::Command {
        addr,
        cdb,
        data: NO_DATA,
        notation: Notation::Runs,
    })
}

// A command that writes the sectors of `span`, each byte `byte`.
fn writing(span: Span, cdb: [u8; 16], byte: u8) -> Order
    ensures { result
        ≡ Order.Act (Action.Command span.addr cdb (record { len = span.count * 512; byte = byte }) Notation.Runs) }
{
    Order::Act(Action::Command {
        addr: span.addr,
        cdb,
        data: Data {
            len: u32::from(span.count) * SECTOR_LEN as u32,
            byte,
        },
        notation: Notation::Runs,
    })
}

// Parses a unit's address, and nothing more.
fn unit(arguments: &[&str]) -> Option<Addr>
    ensures { Gives (HasUnit arguments.now) (NamesUnit arguments.now) result }
{
    let [host, lun] = arguments else {
        return None;
    };
    address(host, lun)
}

// Parses a unit's address and its size in sectors.
fn unit_and_size(arguments: &[&str]) -> Option<(Addr, u32)>
    ensures { Gives (HasUnitAndSize arguments.now) (λ both. NamesUnit arguments.now both.0
        × (both.1 ≡ size_sectors (word arguments.now 2))) result }
{
    let [host, lun, size] = arguments else {
        return None;
    };
    Some((address(host, lun)?, ar_numbers::sectors(size)?))
}

/// Parses three words: a host (0 to 3), a LUN (0 to 255) and a number below 2^32.
pub fn unit_and_number(arguments: &[&str]) -> Option<(Addr, u32)>
    ensures { Gives (HasUnitAndNumber 32 arguments.now) (λ both. NamesUnit arguments.now both.0
        × (both.1 ≡ value (word arguments.now 2))) result }
{
    let [host, lun, number] = arguments else {
        return None;
    };
    Some((address(host, lun)?, number_32(number)?))
}

fn address(host: &str, lun: &str) -> Option<Addr>
    ensures { Gives (AreAddress host.now lun.now) (IsAddress host.now lun.now) result }
{
    let host = Host::new(number_8(host)?)?;
    let lun = number_8(lun)?;
    Some(Addr { host, lun })
}

fn number_8(word: &str) -> Option<u8>
    ensures { SomeIff result (IsNumberOf 8 word.now) (value word.now) }
{
    u8::try_from(number(word)?).ok()
}

fn number_16(word: &str) -> Option<u16>
    ensures { SomeIff result (IsNumberOf 16 word.now) (value word.now) }
{
    u16::try_from(number(word)?).ok()
}

fn number_32(word: &str) -> Option<u32>
    ensures { SomeIff result (IsNumberOf 32 word.now) (value word.now) }
{
    u32::try_from(number(word)?).ok()
}
