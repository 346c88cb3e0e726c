// The options of `autoraid` as tables, and its command. `run` and `serve` create an array of a shape with a cache, and
// `create` a store for an array of a shape, so that these options are tables of their own.
use crate::form::{Form, Otherwise, Value, with_forms};
use ar_cli::VERSION;
use clap::Command;
use std::alloc::{AllocError, Global};

/// The value of a port's option.
const PORT: Value = Value::Number(1, 65_535);

/// The value of an option of at most a day.
const SECONDS: Value = Value::Number(1, 86_400);

static SHAPE: [Form; 3] = [
    Form(
        "geometry",
        "NAME",
        Value::Name(&["small", "paper"]),
        Otherwise::Value("small"),
        "small: blocks of 1 KiB; paper: of 64 KiB",
    ),
    Form(
        "disks",
        "COUNT",
        Value::Number(4, 12),
        Otherwise::Value("4"),
        "Disks, 4 to 12",
    ),
    Form(
        "extents",
        "COUNT",
        Value::Number(1, 1_024),
        Otherwise::Value("4"),
        "Extents of each disk, 1 to 1024",
    ),
];

static CACHE: [Form; 1] = [Form(
    "cache",
    "BLOCKS",
    Value::Text,
    Otherwise::Value("0"),
    "The write cache, 0 to 65536 blocks, or a size as 32M",
)];

static RUN: [Form; 2] = [
    Form(
        "picture",
        "FILE",
        Value::Text,
        Otherwise::Nothing,
        "Draw the array to this file at the end, as an SVG",
    ),
    Form(
        "echo",
        "ECHO",
        Value::Flag,
        Otherwise::Nothing,
        "Print each line before its answer",
    ),
];

static MIRROR: [Form; 1] = [Form(
    "mirror",
    "FOLDER",
    Value::Text,
    Otherwise::Nothing,
    "A folder with a second copy of the store",
)];

static CREATE: [Form; 1] = [Form(
    "store",
    "FOLDER",
    Value::Text,
    Otherwise::Refused,
    "The folder of the store",
)];

static NAME: [Form; 1] = [Form(
    "name",
    "NAME",
    Value::Text,
    Otherwise::Nothing,
    "The array's name, at most 64 bytes; empty if not given",
)];

static CHECK: [Form; 1] = [Form(
    "store",
    "FOLDER",
    Value::Text,
    Otherwise::Refused,
    "The folder of the store",
)];

static IMAGE: [Form; 2] = [
    Form(
        "store",
        "FOLDER",
        Value::Text,
        Otherwise::Refused,
        "The folder of the store",
    ),
    Form(
        "UNIT",
        "UNIT",
        Value::Word,
        Otherwise::Refused,
        "The unit, HOST:LUN",
    ),
];

static PORTS: [Form; 6] = [
    Form(
        "port",
        "PORT",
        PORT,
        Otherwise::Nothing,
        "The port for hosts; left out, they come over iSCSI alone",
    ),
    Form(
        "sessions",
        "COUNT",
        Value::Number(1, 64),
        Otherwise::Nothing,
        "End after COUNT sessions of hosts, 1 to 64",
    ),
    Form(
        "operator",
        "PORT|PATH",
        Value::Text,
        Otherwise::Nothing,
        "The port or Unix socket for operators, whose stop ends the service",
    ),
    Form(
        "http",
        "PORT",
        PORT,
        Otherwise::Nothing,
        "The port for browsers and Prometheus",
    ),
    Form(
        "http-host",
        "NAME",
        Value::Text,
        Otherwise::Nothing,
        "A name of this port's clients for it, beside localhost",
    ),
    Form(
        "iscsi",
        "PORT",
        PORT,
        Otherwise::Nothing,
        "The port for iSCSI initiators",
    ),
];

static SERVE: [Form; 8] = [
    Form(
        "login-timeout",
        "SECONDS",
        SECONDS,
        Otherwise::Value("10"),
        "How long a login may take",
    ),
    Form(
        "idle-timeout",
        "SECONDS",
        SECONDS,
        Otherwise::Nothing,
        "How long a session may be silent",
    ),
    Form(
        "iscsi-ping",
        "SECONDS",
        Value::Number(0, 86_400),
        Otherwise::Value("15"),
        "Silence before an initiator is pinged; 0: never",
    ),
    Form(
        "poll",
        "MICROSECONDS",
        Value::Number(0, 1_000),
        Otherwise::Value("0"),
        "How long a session polls before it sleeps, 0 to 1000",
    ),
    Form(
        "audit",
        "HOW",
        Value::Name(&["full", "off"]),
        Otherwise::Nothing,
        "full: keep all commands, and compare them at the end; or off",
    ),
    Form(
        "spares",
        "COUNT",
        Value::Number(0, 4),
        Otherwise::Value("0"),
        "Disks that replace failed ones by themselves, 0 to 4",
    ),
    Form(
        "log",
        "LOG",
        Value::Flag,
        Otherwise::Nothing,
        "Log sessions, disks and units on standard error",
    ),
    Form(
        "UNIT",
        "UNIT",
        Value::Words,
        Otherwise::Nothing,
        "Units to create, HOST:LUN:SIZE in sectors or as 32M",
    ),
];

static STORE: [Form; 3] = [
    Form(
        "store",
        "FOLDER",
        Value::Text,
        Otherwise::Nothing,
        "Serve the array of the store in this folder",
    ),
    Form(
        "sync",
        "MODE",
        Value::Name(&["flush", "always"]),
        Otherwise::Value("flush"),
        "flush: sync at flushes; always: at each write",
    ),
    Form(
        "commit-every",
        "SECONDS",
        Value::Number(1, 3_600),
        Otherwise::Value("1"),
        "Sync at least this often, 1 to 3600",
    ),
];

static ABOUT: &str = "A disk array of two levels, mirrored and parity groups, for up to four hosts";

static EXAMPLES: &str = "Examples:\n  \
    autoraid run < examples/life.script\n  \
    autoraid serve --port 7117 --operator 7118 --geometry paper --extents 64 0:0:32M";

static RUN_EXAMPLE: &str =
    "Example:\n  autoraid run --disks 5 --picture array.svg < examples/life.script";

static CREATE_EXAMPLE: &str =
    "Example:\n  autoraid create --store /srv/array --name backup --geometry paper --extents 64";

static CHECK_EXAMPLE: &str = "Example:\n  autoraid check --store /srv/array";

static EXPORT_EXAMPLE: &str =
    "Nothing of the store is written.\n\nExample:\n  autoraid export --store /srv/array 0:0 > image";

static IMPORT_EXAMPLE: &str =
    "The image is written from sector 0 on: whole sectors, at most as many as the unit has. A unit that\n\
    isn't there is created with the image's length.\n\n\
    Example:\n  autoraid import --store /srv/array 0:0 < image";

static SERVE_EXAMPLE: &str =
    "Ports are those of 127.0.0.1. --sessions or --operator is required: nothing else ends a service.\n\
    --audit is full with --sessions but no --iscsi or --store, else off. A store has its name and shape.\n\n\
    Example:\n  \
    autoraid serve --port 7117 --operator 7118 --http 7119 --geometry paper --extents 40 0:0:32M";

/// The command of `autoraid`, with a subcommand for each way to use it.
pub fn command<'a>(alloc: Global) -> Result<Command<'a>, AllocError> {
    Command::new(alloc, "autoraid")
        .about(ABOUT)
        .after_help(EXAMPLES)
        .version(VERSION)
        .subcommand_required(true)
        .subcommand_value_name("run|create|check|export|import|serve")
        .subcommand(run(alloc)?)?
        .subcommand(create(alloc)?)?
        .subcommand(check(alloc)?)?
        .subcommand(export(alloc)?)?
        .subcommand(import(alloc)?)?
        .subcommand(serve(alloc)?)
}

fn run<'a>(alloc: Global) -> Result<Command<'a>, AllocError> {
    let command = Command::new(alloc, "run")
        .about("Run a script of standard input on a new array")
        .after_help(RUN_EXAMPLE);
    let command = with_forms(alloc, command, &RUN)?;
    let command = with_forms(alloc, command, &SHAPE)?;
    with_forms(alloc, command, &CACHE)
}

fn create<'a>(alloc: Global) -> Result<Command<'a>, AllocError> {
    let command = Command::new(alloc, "create")
        .about("Create a store, which keeps an array in a folder")
        .after_help(CREATE_EXAMPLE);
    let command = with_forms(alloc, command, &CREATE)?;
    let command = with_forms(alloc, command, &NAME)?;
    let command = with_forms(alloc, command, &MIRROR)?;
    with_forms(alloc, command, &SHAPE)
}

fn check<'a>(alloc: Global) -> Result<Command<'a>, AllocError> {
    let command = Command::new(alloc, "check")
        .about("Check the store in a folder")
        .after_help(CHECK_EXAMPLE);
    with_forms(alloc, command, &CHECK)
}

fn export<'a>(alloc: Global) -> Result<Command<'a>, AllocError> {
    let command = Command::new(alloc, "export")
        .about("Write what a unit of a store holds to standard output")
        .after_help(EXPORT_EXAMPLE);
    with_forms(alloc, command, &IMAGE)
}

fn import<'a>(alloc: Global) -> Result<Command<'a>, AllocError> {
    let command = Command::new(alloc, "import")
        .about("Write standard input to a unit of a store")
        .after_help(IMPORT_EXAMPLE);
    with_forms(alloc, command, &IMAGE)
}

fn serve<'a>(alloc: Global) -> Result<Command<'a>, AllocError> {
    let command = Command::new(alloc, "serve")
        .about("Serve an array to hosts, operators, initiators and HTTP clients")
        .after_help(SERVE_EXAMPLE);
    let command = with_forms(alloc, command, &PORTS)?;
    let command = with_forms(alloc, command, &NAME)?;
    let command = with_forms(alloc, command, &SERVE)?;
    let command = with_forms(alloc, command, &STORE)?;
    let command = with_forms(alloc, command, &MIRROR)?;
    let command = with_forms(alloc, command, &SHAPE)?;
    with_forms(alloc, command, &CACHE)
}
