// The command line of `autoraid`.
ghost use Rattle.std.specs.Prelude.{◌≤◌, IfOk, IfSome, length};
ghost use Rattle.std.specs.String.{string_bytes};

use crate::array_forms::command;
use crate::command::{Parsed, parse};
use crate::fault::{UsageFault, bad_value};
use crate::operator::{OperatorDoor, door_named};
use ar_cli::CommandLineFault;
use ar_disks::{Addr, Geometry, Host, MAX_LUN};
use ar_numbers::{number, sectors};
use clap::ArgMatches;
use clap::parser::ValueSource;
use std::alloc::{AllocError, Global};
use std::convert::AsStr;

/// What a command line asks for.
#[derive(Drop)]
pub enum Order {
    /// The help or the version is printed.
    Shown(String),
    /// A script is run on a new array.
    Run(ArrayOptions, RunOptions),
    /// A store is created, with an array without units.
    Create(CreateOptions),
    /// The store in this folder is checked.
    Check(String),
    /// What a unit of a store holds is written to standard output.
    Export(StoredUnit),
    /// Standard input is written to a unit of a store.
    Import(StoredUnit),
    /// Hosts are served.
    Serve(ServeOptions),
}

/// How a script is run.
#[derive(Drop)]
pub struct RunOptions {
    /// The file to which the array is drawn afterwards.
    pub picture: Option<String>,
    /// Whether each line is printed before its answer.
    pub echo: bool,
}

/// A unit of a store.
#[derive(Drop)]
pub struct StoredUnit {
    /// The store's folder.
    pub folder: String,
    pub addr: Addr,
}

/// The array to create.
#[derive(Clone, Copy)]
pub struct ArrayOptions {
    pub geometry: Geometry,
    /// The number of disks, 4 to 12.
    pub disks: u8,
    /// Extents of each disk, 1 to 1,024.
    pub extents: u16,
    /// The capacity of the cache in blocks, 0 to 65,536.
    pub cache: u32,
}

/// The store to create, and its array.
#[derive(Drop)]
pub struct CreateOptions {
    /// The store's folder.
    pub store: String,
    /// The folder of its second copy, if it has one.
    pub mirror: Option<String>,
    /// The array's name, empty if it has none.
    pub name: String,
    pub geometry: Geometry,
    /// The number of disks, 4 to 12.
    pub disks: u8,
    /// Extents of each disk, 1 to 1,024.
    pub extents: u16,
    pub ghost name_fits: { length (string_bytes name) ≤ 64 },
}

/// The array to serve, and how.
#[derive(Drop)]
pub struct ServeOptions {
    /// The array. That of a store has the store's shape in place of the one here.
    pub array: ArrayOptions,
    /// The store of the array. `None`: the array is new, and nothing outlives the service.
    pub store: Option<StoreOptions>,
    /// Whether the start and the end of each session is logged.
    pub log: bool,
    /// The array's name, empty if it has none. That of a store has the store's name in place of the one here.
    pub name: String,
    /// The port for hosts. `None`: they come over iSCSI alone.
    pub port: Option<u16>,
    pub sessions: Option<u8>,
    pub operator: Option<OperatorDoor>,
    pub http: Option<u16>,
    /// A name by which HTTP clients may ask for the service, beside those of 127.0.0.1.
    pub http_host: Option<String>,
    pub iscsi: Option<u16>,
    /// Seconds from a connection's opening to its accepted login.
    pub login_timeout: Option<u32>,
    /// Seconds for which a session may be silent.
    pub idle_timeout: Option<u32>,
    /// Seconds of silence after which an initiator is pinged. `None`: never.
    pub iscsi_ping: Option<u32>,
    /// Microseconds for which a session looks for its next command before it sleeps, 0 to 1,000.
    pub poll: u16,
    pub audit: Audit,
    /// The spare disks, 0 to 4.
    pub spares: u8,
    /// The units to create.
    pub units: Vec<UnitOption>,
    /// Their words.
    pub words: Vec<String>,
}

/// The store of a served array.
#[derive(Drop)]
pub struct StoreOptions {
    /// The store's folder.
    pub folder: String,
    /// The folder of its second copy, if it has one.
    pub mirror: Option<String>,
    pub sync: SyncMode,
    /// Seconds after which a change is synced at the latest, 1 to 3,600.
    pub commit_every: u32,
    /// The shape that the command line asks for, which may differ from the store's.
    pub shape: ShapeOptions,
}

/// When a store is synced, besides every `commit_every` seconds.
#[derive(Clone, Copy, Debug, PartialEq, Eq)]
pub enum SyncMode {
    /// Before a host's flush is answered.
    Flush,
    /// Before any write is answered.
    Always,
}

/// An array's shape, as far as the command line has it: defaults are left out.
#[derive(Clone, Copy, Debug, PartialEq, Eq)]
pub struct ShapeOptions {
    pub geometry: Option<Geometry>,
    pub disks: Option<u8>,
    pub extents: Option<u16>,
}

/// Whether the history is stored, and compared with hosts' transcripts at the end.
#[derive(Clone, Copy, Debug, PartialEq, Eq)]
pub enum Audit {
    Full,
    Off,
}

/// A unit to create.
#[derive(Clone, Copy)]
pub struct UnitOption {
    pub addr: Addr,
    pub sectors: u32,
}

/// The most blocks of a cache.
const MAX_CACHE: u64 = 65_536;

/// The most bytes of an array's name.
const MAX_NAME: usize = 64;

/// Reads the words of a command line, the program's name first.
pub fn order_in<S: AsStr>(alloc: Global, words: &[S]) -> Result<Order, UsageFault> {
    match parse(alloc, command(alloc)?, words)? {
        Parsed::Shown(text) => Ok(Order::Shown(text)),
        Parsed::Matches(matches) => order_of(alloc, &matches),
    }
}

fn order_of(alloc: Global, matches: &ArgMatches<'_>) -> Result<Order, UsageFault> {
    match matches.subcommand() {
        Some(("run", options)) => {
            let array = array_of(alloc, options)?;
            Ok(Order::Run(array, run_options_of(alloc, options)?))
        }
        Some(("create", options)) => Ok(Order::Create(create_options_of(alloc, options)?)),
        Some(("check", options)) => Ok(Order::Check(folder_of(alloc, options)?)),
        Some(("export", options)) => Ok(Order::Export(stored_unit_of(alloc, options)?)),
        Some(("import", options)) => Ok(Order::Import(stored_unit_of(alloc, options)?)),
        Some((_, options)) => Ok(Order::Serve(serve_options_of(alloc, options)?)),
        None => Err(bad_value(
            alloc,
            "one of run, create, check, export, import and serve is required",
        )),
    }
}

fn array_of(alloc: Global, options: &ArgMatches<'_>) -> Result<ArrayOptions, UsageFault> {
    Ok(ArrayOptions {
        geometry: geometry_of(options),
        disks: disks_of(options),
        extents: extents_of(options),
        cache: cache_of(alloc, options)?,
    })
}

fn run_options_of(alloc: Global, options: &ArgMatches<'_>) -> Result<RunOptions, AllocError> {
    let picture = text_of(alloc, options, "picture")?;
    let echo = options.get_flag("echo");
    Ok(RunOptions { picture, echo })
}

fn geometry_of(options: &ArgMatches<'_>) -> Geometry {
    match options.get_str("geometry") {
        Some("paper") => Geometry::PAPER,
        _ => Geometry::SMALL,
    }
}

fn disks_of(options: &ArgMatches<'_>) -> u8 {
    options.get_one("disks").unwrap_or(4)
}

fn extents_of(options: &ArgMatches<'_>) -> u16 {
    options.get_one("extents").unwrap_or(4)
}

// Blocks of a store have the size with which it was created. It isn't known here, so that a cache's size can't be
// counted in them unless the command line has the geometry, which the caller compares with the store's.
fn cache_of(alloc: Global, options: &ArgMatches<'_>) -> Result<u32, UsageFault> {
    let word = options.get_str("cache").unwrap_or("0");
    let is_size = number(word).is_none();
    if is_size && is_given(options, "store") && !is_given(options, "geometry") {
        return Err(bad_cache(alloc, word, "with --store a size requires --geometry"));
    }
    match blocks_in(word, geometry_of(options)) {
        Some(blocks) => Ok(blocks),
        None => Err(bad_cache(
            alloc,
            word,
            "at most 65536 blocks are allowed, or a size of whole blocks as 32M",
        )),
    }
}

// The fault of a cache, in the words that `clap` has for other values.
fn bad_cache(alloc: Global, word: &str, why: &str) -> UsageFault {
    match format!(in alloc; "invalid value '{word}' for '--cache <BLOCKS>': {why}") {
        Ok(text) => UsageFault::Bad(text),
        Err(_) => UsageFault::Words(CommandLineFault::NoMemory),
    }
}

// Whether the words have an option: its default doesn't count.
fn is_given(options: &ArgMatches<'_>, name: &str) -> bool {
    matches!(options.value_source(name), Some(ValueSource::CommandLine))
}

// The blocks of a cache: a number of them, or a size that is a whole number of them.
fn blocks_in(word: &str, geometry: Geometry) -> Option<u32>
    ensures { IfSome result (λ blocks. blocks ≤ 65536) }
{
    let blocks = match number(word) {
        Some(blocks) => blocks,
        None => whole_blocks(sectors(word)?, geometry)?,
    };
    if blocks > MAX_CACHE {
        return None;
    }
    u32::try_from(blocks).ok()
}

// The blocks of a number of sectors, if they are whole ones.
fn whole_blocks(sectors: u32, geometry: Geometry) -> Option<u64> {
    let of_block = geometry.sectors() as u32;
    if of_block == 0 || sectors % of_block != 0 {
        return None;
    }
    Some(u64::from(sectors / of_block))
}

fn create_options_of(alloc: Global, options: &ArgMatches<'_>) -> Result<CreateOptions, UsageFault> {
    let store = folder_of(alloc, options)?;
    let mirror = mirror_of(alloc, options)?;
    let name = name_of(alloc, options)?;
    Ok(CreateOptions {
        store,
        mirror,
        name,
        geometry: geometry_of(options),
        disks: disks_of(options),
        extents: extents_of(options),
    })
}

// The folder of a store, where it is required.
fn folder_of(alloc: Global, options: &ArgMatches<'_>) -> Result<String, AllocError> {
    String::from_str(alloc, options.get_str("store").unwrap_or(""))
}

// The folder of a store's second copy, if one is named.
fn mirror_of(alloc: Global, options: &ArgMatches<'_>) -> Result<Option<String>, AllocError> {
    match options.get_str("mirror") {
        Some(folder) => Ok(Some(String::from_str(alloc, folder)?)),
        None => Ok(None),
    }
}

fn stored_unit_of(alloc: Global, options: &ArgMatches<'_>) -> Result<StoredUnit, UsageFault> {
    let folder = folder_of(alloc, options)?;
    let word = options.get_str("UNIT").unwrap_or("");
    match place_named(word) {
        Some(addr) => Ok(StoredUnit { folder, addr }),
        None => Err(bad_place(alloc, word)),
    }
}

// The fault of a unit's place, in the words that `clap` has for other values.
fn bad_place(alloc: Global, word: &str) -> UsageFault {
    match format!(in alloc;
        "invalid value '{word}' for '<UNIT>': a unit is HOST:LUN, a host from 0 to 3 and a LUN from 0 to 7"
    ) {
        Ok(text) => UsageFault::Bad(text),
        Err(_) => UsageFault::Words(CommandLineFault::NoMemory),
    }
}

// The place that a word `HOST:LUN` names. No unit has a LUN of more than 7.
fn place_named(word: &str) -> Option<Addr> {
    let (host, lun) = word.split_once(':')?;
    let host = Host::new(u8::try_from(number(host)?).ok()?)?;
    let lun = u8::try_from(number(lun)?).ok()?;
    if lun > MAX_LUN {
        return None;
    }
    Some(Addr { host, lun })
}

fn name_of(alloc: Global, options: &ArgMatches<'_>) -> Result<String, UsageFault>
    ensures { IfOk result (λ name. length (string_bytes name) ≤ 64) }
{
    let name = options.get_str("name").unwrap_or("");
    if name.len() > MAX_NAME {
        return Err(bad_value(
            alloc,
            "invalid value for '--name <NAME>': at most 64 bytes are allowed",
        ));
    }
    if name.bytes().any(|byte| byte.is_ascii_control()) {
        return Err(bad_value(
            alloc,
            "invalid value for '--name <NAME>': control characters are not allowed",
        ));
    }
    Ok(String::from_str(alloc, name)?)
}

fn serve_options_of(alloc: Global, options: &ArgMatches<'_>) -> Result<ServeOptions, UsageFault> {
    let array = array_of(alloc, options)?;
    let port = port_of(alloc, options)?;
    let sessions = options.get_one("sessions");
    let operator = operator_of(alloc, options)?;
    if sessions.is_none() && operator.is_none() {
        return Err(bad_value(
            alloc,
            "one of --sessions COUNT and --operator PORT|PATH is required",
        ));
    }
    let name = served_name_of(alloc, options)?;
    let audit = audit_of(alloc, options)?;
    let store = store_of(alloc, options)?;
    let (units, words) = units_of(alloc, options.get_strs("UNIT").unwrap_or(&[]))?;
    Ok(ServeOptions {
        array,
        store,
        log: options.get_flag("log"),
        name,
        port,
        sessions,
        operator,
        http: options.get_one("http"),
        http_host: http_host_of(alloc, options)?,
        iscsi: options.get_one("iscsi"),
        login_timeout: options.get_one("login-timeout"),
        idle_timeout: options.get_one("idle-timeout"),
        iscsi_ping: iscsi_ping_of(options),
        poll: options.get_one("poll").unwrap_or(0),
        audit,
        spares: options.get_one("spares").unwrap_or(0),
        units,
        words,
    })
}

// The seconds after which a silent initiator is pinged. 0: it never is.
fn iscsi_ping_of(options: &ArgMatches<'_>) -> Option<u32> {
    options.get_one("iscsi-ping").filter(|seconds| *seconds > 0)
}

// The name of the array. A store has its own.
fn served_name_of(alloc: Global, options: &ArgMatches<'_>) -> Result<String, UsageFault> {
    if is_given(options, "name") && is_given(options, "store") {
        return Err(bad_value(
            alloc,
            "'--name <NAME>' cannot be used with '--store <FOLDER>': a store has its own name",
        ));
    }
    name_of(alloc, options)
}

// The port for hosts, unless they come over iSCSI alone.
fn port_of(alloc: Global, options: &ArgMatches<'_>) -> Result<Option<u16>, UsageFault> {
    let port = options.get_one("port");
    if port.is_none() {
        if is_given(options, "sessions") {
            return Err(bad_value(alloc, "'--sessions <COUNT>' requires '--port <PORT>'"));
        }
        if !is_given(options, "iscsi") {
            return Err(bad_value(alloc, "one of --port PORT and --iscsi PORT is required"));
        }
    }
    Ok(port)
}

// Where operators connect, if any may.
fn operator_of(
    alloc: Global,
    options: &ArgMatches<'_>,
) -> Result<Option<OperatorDoor>, UsageFault> {
    match options.get_str("operator") {
        Some(word) => Ok(Some(door_named(alloc, word)?)),
        None => Ok(None),
    }
}

// The name by which HTTP clients may ask for the service.
fn http_host_of(alloc: Global, options: &ArgMatches<'_>) -> Result<Option<String>, UsageFault> {
    match options.get_str("http-host") {
        Some("") => Err(bad_value(alloc, "invalid value for '--http-host <NAME>': it is empty")),
        Some(_) if !is_given(options, "http") => Err(bad_value(
            alloc,
            "'--http-host <NAME>' requires '--http <PORT>'",
        )),
        Some(name) => Ok(Some(String::from_str(alloc, name)?)),
        None => Ok(None),
    }
}

// The audit that is asked for. Otherwise a history is stored only where its end is in sight: initiators write whole
// images, which would fill the memory, and the array of a store outlives any history.
fn audit_of(alloc: Global, options: &ArgMatches<'_>) -> Result<Audit, UsageFault> {
    let has_store = is_given(options, "store");
    match options.get_str("audit") {
        Some("full") if has_store => Err(bad_value(
            alloc,
            "'--audit full' cannot be used with '--store <FOLDER>': an array with a store keeps no history",
        )),
        Some("full") => Ok(Audit::Full),
        Some(_) => Ok(Audit::Off),
        None if has_store || is_given(options, "iscsi") => Ok(Audit::Off),
        None if is_given(options, "sessions") => Ok(Audit::Full),
        None => Ok(Audit::Off),
    }
}

// The store, if one is named.
fn store_of(alloc: Global, options: &ArgMatches<'_>) -> Result<Option<StoreOptions>, UsageFault> {
    match options.get_str("store") {
        Some(folder) => Ok(Some(StoreOptions {
            folder: String::from_str(alloc, folder)?,
            mirror: mirror_of(alloc, options)?,
            sync: sync_of(options),
            commit_every: options.get_one("commit-every").unwrap_or(1),
            shape: shape_of(options),
        })),
        None if is_given(options, "mirror") => {
            Err(bad_value(alloc, "'--mirror <FOLDER>' requires '--store <FOLDER>'"))
        }
        None if is_given(options, "sync") => {
            Err(bad_value(alloc, "'--sync <MODE>' requires '--store <FOLDER>'"))
        }
        None if is_given(options, "commit-every") => Err(bad_value(
            alloc,
            "'--commit-every <SECONDS>' requires '--store <FOLDER>'",
        )),
        None => Ok(None),
    }
}

fn sync_of(options: &ArgMatches<'_>) -> SyncMode {
    match options.get_str("sync") {
        Some("always") => SyncMode::Always,
        _ => SyncMode::Flush,
    }
}

fn shape_of(options: &ArgMatches<'_>) -> ShapeOptions {
    ShapeOptions {
        geometry: is_given(options, "geometry").then_some(geometry_of(options)),
        disks: is_given(options, "disks").then_some(disks_of(options)),
        extents: is_given(options, "extents").then_some(extents_of(options)),
    }
}

// The text of an option, if it is given.
fn text_of(
    alloc: Global,
    options: &ArgMatches<'_>,
    name: &str,
) -> Result<Option<String>, AllocError> {
    match options.get_str(name) {
        Some(text) => Ok(Some(String::from_str(alloc, text)?)),
        None => Ok(None),
    }
}

// The units that these words name, and the words.
fn units_of(alloc: Global, words: &[&str]) -> Result<(Vec<UnitOption>, Vec<String>), UsageFault> {
    let mut units = Vec::new(alloc);
    let mut texts = Vec::new(alloc);
    for word in words {
        let text = String::from_str(alloc, word)?;
        let Some(unit) = unit_named(word) else {
            return Err(UsageFault::BadUnit(text));
        };
        units.push(unit).map_err(|_| CommandLineFault::NoMemory)?;
        texts.push(text).map_err(|_| CommandLineFault::NoMemory)?;
    }
    Ok((units, texts))
}

// The unit that a word `HOST:LUN:SIZE` names.
fn unit_named(word: &str) -> Option<UnitOption> {
    let (host, rest) = word.split_once(':')?;
    let (lun, size) = rest.split_once(':')?;
    let host = Host::new(u8::try_from(number(host)?).ok()?)?;
    let lun = u8::try_from(number(lun)?).ok()?;
    Some(UnitOption {
        addr: Addr { host, lun },
        sectors: sectors(size)?,
    })
}
