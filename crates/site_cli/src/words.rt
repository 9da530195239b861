//! The words of the command line.
ghost use Rattle.std.specs.Prelude.{◌≡◌, ◌≢◌, ◌≤◌, ◌^◌, [], false, true, IfOk, IfErr, IfSome, Some, None, codes, drop, map, option_map};
ghost use Rattle.std.specs.String.{string_bytes};
ghost use Rattle.std.specs.Vec.Iter.{into_iter_items};
ghost use Rattle.std.specs.IoError.{error_kind};
ghost use Rattle.clap.specs.Words.{app_of, fault_of, first_of, found_of, kind_of, rows_of, rule_of, subcommand_of, subcommand_rows_of, with_subcommand};
ghost use Rattle.clap.specs.declared.builder.command.Command.TheViews.{out-Command as fields_of};
ghost use Rattle.clap.specs.declared.error.kind.ErrorKind.TheVariants as kind;
ghost use Rattle.site_cli.specs.Words.{asked, asked_of, drill_app, drills, limit_in, named_job, number_given, number_or, number_to, option_rule, flag_rule, replay_app, required_rule, bare_serve_app, serve_app, serve_job, site_app, store_app, store_job, synopsis, warm_in, workers_in};

use clap::error::ErrorKind as ClapKind;
use clap::{Arg, ArgAction, ArgMatches, Command, Error as ClapError};
use content_rows::id_of;
use drill_input::number_of;
use serve_store::Serving;
use std::alloc::{AllocError, Global};
use std::env::Args;
use std::io::ErrorKind;
use std::{env, io};

/// What the program is asked to do.
#[derive(Drop, Debug)]
pub enum Job {
    /// `replay [ROWS]`: answer one connection, from the input to the output, over the site of the file of rows of that
    /// path, or over the starter site.
    Replay(Option<String>),
    /// `serve --store PATH --listen ADDR [--workers N] [--limit M] [--warm]`: serve the site of the store of that path.
    Serve(Serving),
    /// `import --store PATH`: fill the store of that path with the rows of the input.
    Import(String),
    /// `export --store PATH`: write the rows of the store of that path out.
    Export(String),
    /// `check --store PATH`: check that the store of that path holds a site.
    Check(String),
    /// `targets --store PATH`: list the targets of the site of the store of that path that a visitor without a session gets.
    Targets(String),
    /// `drill N`: answer the requests that are made from that number, in memory, and tell what came of it.
    Drill(u64),
}

/// Why the words name no job.
#[derive(Clone, Copy, Debug, PartialEq, Eq)]
pub enum WordFault {
    /// They are no command line of the program, or ask for help.
    BadWords,
    OutOfMemory,
}

impl From<AllocError> for WordFault {
    ghost use Rattle.site_cli.specs.declared.words.WordFault.TheVariants.{OutOfMemory};

    ghost from_gives = { λ _ fault. fault ≡ OutOfMemory };

    fn from(_wanting: AllocError) -> WordFault {
        WordFault::OutOfMemory
    }
}

/// The command `replay [ROWS]`.
fn replay_command<'a>(alloc: Global) -> Result<Command<'a>, AllocError>
    ensures app { IfOk result (λ c. app_of c ≡ replay_app) }
    ensures local { IfOk result (λ c. (fields_of c).has_globals ≡ false) }
{
    Command::new(alloc, "replay").arg(Arg::new(alloc, "ROWS"))
}

/// An option with this name, which is given or not.
fn option_arg<'a>(alloc: Global, name: &'a str) -> Arg<'a>
    ensures rule { rule_of result ≡ option_rule name.entry.now }
    ensures local { result.global ≡ false }
{
    Arg::new(alloc, name).long(name)
}

/// One that is to be given.
fn required_arg<'a>(alloc: Global, name: &'a str) -> Arg<'a>
    ensures rule { rule_of result ≡ required_rule name.entry.now }
    ensures local { result.global ≡ false }
{
    Arg::new(alloc, name).long(name).required(true)
}

/// A flag with this name, which takes no value.
fn flag_arg<'a>(alloc: Global, name: &'a str) -> Arg<'a>
    ensures rule { rule_of result ≡ flag_rule name.entry.now }
    ensures local { result.global ≡ false }
{
    Arg::new(alloc, name).long(name).action(ArgAction::SetTrue)
}

/// `serve`, with what is to be given.
fn bare_serve_command<'a>(alloc: Global) -> Result<Command<'a>, AllocError>
    ensures app { IfOk result (λ c. app_of c ≡ bare_serve_app) }
    ensures local { IfOk result (λ c. (fields_of c).has_globals ≡ false) }
{
    Command::new(alloc, "serve")
        .arg(required_arg(alloc, "store"))?
        .arg(required_arg(alloc, "listen"))
}

/// `serve`, with its options.
fn serve_command<'a>(alloc: Global) -> Result<Command<'a>, AllocError>
    ensures app { IfOk result (λ c. app_of c ≡ serve_app) }
    ensures local { IfOk result (λ c. (fields_of c).has_globals ≡ false) }
{
    bare_serve_command(alloc)?
        .arg(option_arg(alloc, "workers"))?
        .arg(option_arg(alloc, "limit"))?
        .arg(flag_arg(alloc, "warm"))
}

/// A subcommand that works on a store.
fn store_command<'a>(alloc: Global, name: &'a str) -> Result<Command<'a>, AllocError>
    ensures app { IfOk result (λ c. app_of c ≡ store_app name.entry.now) }
    ensures local { IfOk result (λ c. (fields_of c).has_globals ≡ false) }
{
    Command::new(alloc, name).arg(required_arg(alloc, "store"))
}

/// A command with one more subcommand that works on a store.
fn with_store_command<'a>(
    alloc: Global,
    command: Command<'a>,
    name: &'a str,
) -> Result<Command<'a>, AllocError>
    ensures { IfOk result (λ c. app_of c ≡ with_subcommand (app_of command.entry) (store_app name.entry.now).top) }
{
    command.subcommand(store_command(alloc, name)?)
}

/// The program with `replay`.
fn replay_site<'a>(alloc: Global) -> Result<Command<'a>, AllocError>
    ensures { IfOk result (λ c. app_of c ≡ with_subcommand site_app replay_app.top) }
{
    let site = Command::new(alloc, "site")
        .no_binary_name(true)
        .subcommand_required(true);
    site.subcommand(replay_command(alloc)?)
}

/// The program with `replay` and `serve`.
fn serving_site<'a>(alloc: Global) -> Result<Command<'a>, AllocError>
    ensures { IfOk result (λ c. app_of c ≡ with_subcommand (with_subcommand site_app replay_app.top) serve_app.top) }
{
    replay_site(alloc)?.subcommand(serve_command(alloc)?)
}

/// The command `drill N`.
fn drill_command<'a>(alloc: Global) -> Result<Command<'a>, AllocError>
    ensures app { IfOk result (λ c. app_of c ≡ drill_app) }
    ensures local { IfOk result (λ c. (fields_of c).has_globals ≡ false) }
{
    Command::new(alloc, "drill").arg(Arg::new(alloc, "N").required(true))
}

/// A command with the drill.
fn with_drill_command<'a>(alloc: Global, command: Command<'a>) -> Result<Command<'a>, AllocError>
    ensures { IfOk result (λ c. app_of c ≡ with_subcommand (app_of command.entry) drill_app.top) }
{
    command.subcommand(drill_command(alloc)?)
}

/// The program's commands.
fn site_command<'a>(alloc: Global) -> Result<Command<'a>, AllocError>
    ensures { IfOk result (λ c. app_of c ≡ synopsis) }
{
    let serving = serving_site(alloc)?;
    let importing = with_store_command(alloc, serving, "import")?;
    let exporting = with_store_command(alloc, importing, "export")?;
    let checking = with_store_command(alloc, exporting, "check")?;
    let listing = with_store_command(alloc, checking, "targets")?;
    let drilling = with_drill_command(alloc, listing)?;
    Ok(drilling)
}

/// Why clap refused the words.
fn fault_from(error: &ClapError) -> WordFault
    ensures memory { kind_of error.now ≡ kind.OutOfMemory → result ≡ WordFault.OutOfMemory }
    ensures words { kind_of error.now ≢ kind.OutOfMemory → result ≡ WordFault.BadWords }
{
    if error.kind() == ClapKind::OutOfMemory {
        WordFault::OutOfMemory
    } else {
        WordFault::BadWords
    }
}

/// What clap finds in the words.
fn matches_of<'a>(alloc: Global, words: &'a [String]) -> Result<ArgMatches<'a>, WordFault>
    ensures ok { IfOk result (λ m. (fault_of synopsis (map string_bytes words.entry.now) ≡ []) × (subcommand_rows_of m ≡ subcommand_of synopsis (map string_bytes words.entry.now))) }
    ensures bad { IfErr result (λ fault. fault ≡ WordFault.BadWords → fault_of synopsis (map string_bytes words.entry.now) ≢ []) }
{
    match site_command(alloc)?.try_get_matches_from(words) {
        Ok(matches) => Ok(matches),
        Err(error) => Err(fault_from(&error)),
    }
}

/// The text that an argument is given.
fn text_given(
    alloc: Global,
    matches: &ArgMatches<'_>,
    id: &str,
) -> Result<Option<String>, AllocError>
    ensures { IfOk result (λ path. option_map string_bytes path ≡ first_of id.now (rows_of (found_of matches.now))) }
{
    match matches.get_str(id) {
        Some(path) => Ok(Some(String::from_str(alloc, path)?)),
        None => Ok(None),
    }
}

/// The number that a text writes in decimal: from 1 to the greatest, without a sign or a leading zero.
fn number_to(greatest: u64, text: &str) -> Option<u64>
    ensures number { result ≡ number_to greatest text.now }
    ensures from { IfSome result (λ number. 1 ≤ number) }
    ensures to { IfSome result (λ number. number ≤ greatest) }
{
    let number = u64::from(id_of(text.as_bytes())?);
    if number <= greatest {
        Some(number)
    } else {
        None
    }
}

/// How many workers there are.
fn workers_given(matches: &ArgMatches<'_>) -> Option<u64>
    ensures workers { result ≡ workers_in (rows_of (found_of matches.now)) }
    ensures from { IfSome result (λ number. 1 ≤ number) }
    ensures to { IfSome result (λ number. number ≤ 16) }
{
    match matches.get_str("workers") {
        Some(text) => number_to(16, text),
        None => Some(4),
    }
}

/// How many connections are taken.
fn limit_given(matches: &ArgMatches<'_>) -> Option<u64>
    ensures limit { result ≡ limit_in (rows_of (found_of matches.now)) }
    ensures from { IfSome result (λ number. 1 ≤ number) }
    ensures to { IfSome result (λ number. number ≤ 2 ^ 63) }
{
    match matches.get_str("limit") {
        Some(text) => number_to(1_000_000, text),
        None => Some(1 << 63),
    }
}

/// Whether the pages that anybody may see are rendered before the workers start.
fn warm_given(matches: &ArgMatches<'_>) -> bool
    ensures { result ≡ warm_in (rows_of (found_of matches.now)) }
{
    match matches.get_str("warm") {
        Some(text) => text == "true",
        None => false,
    }
}

/// The job of serving, where all of it is said.
fn serve_job(alloc: Global, matches: &ArgMatches<'_>) -> Result<Option<Job>, AllocError>
    ensures { IfOk result (λ job. option_map asked_of job ≡ serve_job (first_of (codes "store") (rows_of (found_of matches.now))) (first_of (codes "listen") (rows_of (found_of matches.now))) (workers_in (rows_of (found_of matches.now))) (limit_in (rows_of (found_of matches.now))) (warm_in (rows_of (found_of matches.now)))) }
{
    let Some(store) = text_given(alloc, matches, "store")? else {
        return Ok(None);
    };
    let Some(address) = text_given(alloc, matches, "listen")? else {
        return Ok(None);
    };
    let Some(workers) = workers_given(matches) else {
        return Ok(None);
    };
    let Some(limit) = limit_given(matches) else {
        return Ok(None);
    };
    Ok(Some(Job::Serve(Serving {
        store,
        address,
        workers,
        limit,
        warm: warm_given(matches),
    })))
}

/// The job of that name on the store of a path.
fn store_job(name: &str, path: String) -> Option<Job>
    ensures { option_map asked_of result ≡ store_job name.now (Some (string_bytes path)) }
{
    if name == "import" {
        Some(Job::Import(path))
    } else if name == "export" {
        Some(Job::Export(path))
    } else if name == "check" {
        Some(Job::Check(path))
    } else if name == "targets" {
        Some(Job::Targets(path))
    } else {
        None
    }
}

/// The number that a drill is made from.
fn number_given(alloc: Global, matches: &ArgMatches<'_>) -> Result<Option<u64>, AllocError>
    ensures { IfOk result (λ number. number ≡ number_given (first_of (codes "N") (rows_of (found_of matches.now)))) }
{
    match matches.get_str("N") {
        Some(text) => {
            let number = number_of(alloc, text)?;
            Ok(number)
        }
        None => Ok(None),
    }
}

/// The drill, where its number is said.
fn drill_job(alloc: Global, matches: &ArgMatches<'_>) -> Result<Option<Job>, AllocError>
    ensures { IfOk result (λ job. option_map asked_of job ≡ option_map drills (number_given (first_of (codes "N") (rows_of (found_of matches.now))))) }
{
    match number_given(alloc, matches)? {
        Some(number) => Ok(Some(Job::Drill(number))),
        None => Ok(None),
    }
}

/// The job of a subcommand, if it is one.
fn named_job(alloc: Global, name: &str, matches: &ArgMatches<'_>) -> Result<Option<Job>, AllocError>
    ensures { IfOk result (λ job. option_map asked_of job ≡ named_job name.now (rows_of (found_of matches.now))) }
{
    if name == "replay" {
        return Ok(Some(Job::Replay(text_given(alloc, matches, "ROWS")?)));
    }
    if name == "serve" {
        return serve_job(alloc, matches);
    }
    if name == "drill" {
        return drill_job(alloc, matches);
    }
    match text_given(alloc, matches, "store")? {
        Some(path) => Ok(store_job(name, path)),
        None => Ok(None),
    }
}

/// The job that the words after the program's name ask for, as clap reads them.
///
/// `BadWords` comes exactly where they are no command line of the program; to ask for help is none either.
pub fn read_words(alloc: Global, words: &[String]) -> Result<Job, WordFault>
    ensures job { IfOk result (λ job. asked (map string_bytes words.now) ≡ Some (asked_of job)) }
    ensures bad { IfErr result (λ fault. fault ≡ WordFault.BadWords → asked (map string_bytes words.now) ≡ None) }
{
    let found = matches_of(alloc, words)?;
    let Some((name, matches)) = found.subcommand() else {
        return Err(WordFault::BadWords);
    };
    match named_job(alloc, name, matches)? {
        Some(job) => Ok(job),
        None => Err(WordFault::BadWords),
    }
}

/// Why the words can't be had.
#[derive(Clone, Copy, Debug, PartialEq, Eq)]
pub enum WordsFault {
    /// One of them is no UTF-8.
    NoText,
    OutOfMemory,
}

impl From<AllocError> for WordsFault {
    ghost use Rattle.site_cli.specs.declared.words.WordsFault.TheVariants.{OutOfMemory};

    ghost from_gives = { λ _ fault. fault ≡ OutOfMemory };

    fn from(_wanting: AllocError) -> WordsFault {
        WordsFault::OutOfMemory
    }
}

/// Why the system's arguments were refused. They are read in memory alone, so what isn't want of memory is that one is
/// no UTF-8.
pub fn words_fault(error: &io::Error) -> WordsFault
    ensures memory { error_kind error.now ≡ ErrorKind.OutOfMemory → result ≡ WordsFault.OutOfMemory }
    ensures text { error_kind error.now ≢ ErrorKind.OutOfMemory → result ≡ WordsFault.NoText }
{
    if error.kind() == ErrorKind::OutOfMemory {
        WordsFault::OutOfMemory
    } else {
        WordsFault::NoText
    }
}

/// The arguments past the first.
fn past_first(args: Args) -> Args
    ensures { into_iter_items result ≡ drop 1 (into_iter_items args) }
{
    let mut later = args;
    match later.next() {
        Some(_) => later,
        None => later,
    }
}

/// All arguments but the first, which is the program's name, in order.
pub fn words_of(alloc: Global, args: Args) -> Result<Vec<String>, AllocError>
    ensures { IfOk result (λ words. words.items ≡ drop 1 (into_iter_items args)) }
{
    let mut words = Vec::new(alloc);
    let mut later = past_first(args);
    'words: while let Some(word) = later.next() {
        words.push(word)?;
    }
    Ok(words)
}

/// The words after the program's name.
pub fn command_words(rt: &HostRuntime) -> Result<Vec<String>, WordsFault> {
    match env::args(rt) {
        Ok(args) => Ok(words_of(rt.alloc(), args)?),
        Err(error) => Err(words_fault(&error)),
    }
}
