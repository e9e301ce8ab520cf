ghost use Rattle.std.specs.Prelude.{◌≡◌, ◌≤◌, ℤ, List, Result, Ok, true, is_ok, string_bytes};
ghost use Rattle.std.specs.Prelude.{IfOk, IfErr, IfSome, OnOk};
ghost use Rattle.serde_json.specs.View.{view};
ghost use Rattle.grove_tree.specs.Trees.{Rows};
ghost use Rattle.grove_wire.specs.Reading.{tree_in};
ghost use Rattle.grove_wire.specs.declared.fault.WireFault.{WireFault};
ghost use Rattle.grove_words.specs.declared.order.Command.TheVariants.{Serve, Page};
ghost use Rattle.grove_answer.specs.Outcomes.{ThenSays};
ghost use Rattle.grove_answer.specs.Says.{refusal_outcome};
ghost use Rattle.grove.specs.Answers.{IsAnswerTo, IsListening, Tells};
ghost use Rattle.grove.specs.Lines.{address_text, listening_line, place_lines, IsPortFor, NamesPlace};
ghost use Rattle.grove.specs.Outcomes.{IsResumed, IsServed};

use crate::answer::{Answer, Stop};
use crate::answering::{data_refused, refused};
use crate::data_opening::{Keeping, NoData, ServedStore, in_file, in_memory};
use crate::failure::Failure;
use grove_answer::{Refusal, or_refuse};
use grove_serve::{Door, Host, Manner, MemoryFile, Service, Talk};
use grove_store::{NoStore, Store};
use grove_wire::read_tree;
use grove_words::{Place, Port, Serving, Workers};
use serde_json::Value;
use std::alloc::{AllocError, Global};
use std::fs::File;
use std::net::{IpAddr, Net, TcpListener, TcpStream};
use std::rt::Files;

/// How many connections to a store are served at once at the port of its command.
const SLOTS: u32 = 16;

/// A service with the document's tree and records, which listens already, or why there is none.
pub fn serve_document<
    'd,
    R: Host + Files<File = File> + Net<Listener = TcpListener, Stream = TcpStream>,
>(
    rt: &R,
    keeping: Keeping<'d>,
    document: &Value,
    serving: &Serving<'_>,
    talk: Talk,
) -> Result<Answer<'d>, Stop>
    ensures lines { IfOk result (IsAnswerTo (Serve serving.now) (Ok (view document.now))) }
    ensures requests { IfOk result (IsAnswerTo (Page serving.now) (Ok (view document.now))) }
{
    let alloc = rt.alloc();
    match open_store(alloc, document, serving.workers) {
        Ok(store) => serve_store(rt, keeping, store, serving, talk),
        Err(refusal) => refused(alloc, refusal),
    }
}

/// A service of a document's store, or of the one that the file of its rounds has.
#[tactic(auto, using(crate::proofs::Saying::serves_listening, crate::proofs::Saying::serves_kept))]
fn serve_store<'d, R: Host + Files<File = File> + Net<Listener = TcpListener, Stream = TcpStream>>(
    rt: &R,
    keeping: Keeping<'d>,
    store: Store,
    serving: &Serving<'_>,
    talk: Talk,
) -> Result<Answer<'d>, Stop>
    ensures { (found : Result (Rows × List ℤ) WireFault) → is_ok found ≡ true
        → IfOk result (Tells (ThenSays found (IsServed serving.now)) 3) }
{
    match serving.data {
        Some(_) => serve_file(rt, keeping, Some(store), serving, talk),
        None => listen(rt, in_memory(store), serving, talk),
    }
}

/// A service of the store that the file of rounds has, or of the document's.
#[tactic(auto, using(crate::proofs::Saying::resumes_listening))]
pub fn serve_file<
    'd,
    R: Host + Files<File = File> + Net<Listener = TcpListener, Stream = TcpStream>,
>(
    rt: &R,
    keeping: Keeping<'d>,
    document: Option<Store>,
    serving: &Serving<'_>,
    talk: Talk,
) -> Result<Answer<'d>, Stop>
    ensures { IfOk result (Tells (IsResumed serving.now.place) 3) }
{
    let alloc = rt.alloc();
    match in_file(alloc, keeping, document, serving.workers) {
        Ok(served) => listen(rt, served, serving, talk),
        Err(NoData::Refused(refusal)) => data_refused(alloc, refusal),
        Err(NoData::Stopped(why)) => Err(why),
    }
}

/// A service of the store, which listens already.
fn listen<'d, R: Host + Files<File = File> + Net<Listener = TcpListener, Stream = TcpStream>>(
    rt: &R,
    served: ServedStore<'d>,
    serving: &Serving<'_>,
    talk: Talk,
) -> Result<Answer<'d>, Stop>
    ensures { IfOk result (IsListening serving.now.place) }
{
    let alloc = rt.alloc();
    let manner = manner_of(rt, alloc, serving, talk)?;
    let Doors { door, http, line } = open_doors(rt, alloc, serving, talk)?;
    let ServedStore { kept, counts } = served;
    let service = Service {
        kept,
        counts,
        sync: serving.sync,
        door,
        http,
        manner,
    };
    Ok(Answer::Listen { line, service })
}

/// How connections are served.
fn manner_of<R: Files<File = File>>(
    rt: &R,
    alloc: Global,
    serving: &Serving<'_>,
    talk: Talk,
) -> Result<Manner, AllocError> {
    let mut hosts = Vec::new(alloc);
    for host in &serving.hosts {
        hosts.push(String::from_str(alloc, host)?)?;
    }
    Ok(Manner {
        patience: serving.patience,
        log: serving.log,
        hosts,
        hints: serving.hints,
        memory: memory_for(rt, serving.place, talk),
    })
}

/// Where the system says how much memory the server has. Only who speaks HTTP can ask for it: without that the file
/// would take a descriptor for nothing.
fn memory_for<R: Files<File = File>>(rt: &R, place: Place, talk: Talk) -> Option<MemoryFile> {
    match (talk, place.http) {
        (Talk::Lines, None) => None,
        (Talk::Requests, _) | (Talk::Lines, Some(_)) => MemoryFile::open(rt),
    }
}

/// A store of the document's tree and records.
fn open_store(alloc: Global, document: &Value, workers: Workers) -> Result<Store, Refusal>
    ensures opened { OnOk result (is_ok (tree_in (view document.now)) ≡ true) }
    ensures refused { (serving : Serving)
        → IfErr result (λ refusal. IfSome (refusal_outcome refusal)
        (ThenSays (tree_in (view document.now)) (IsServed serving))) }
{
    let (tree, records) = or_refuse(alloc, read_tree(alloc, document))?;
    match Store::open(alloc, tree, records, workers.number) {
        Ok(store) => Ok(store),
        Err(NoStore { .. }) => Err(Refusal::Memory),
    }
}

/// The ports that are listened on, and the lines that say so.
#[derive(Drop)]
struct Doors {
    door: Door,
    http: Option<Door>,
    line: String,
}

/// Listens at the place.
fn open_doors<R: Host + Net<Listener = TcpListener, Stream = TcpStream>>(
    rt: &R,
    alloc: Global,
    serving: &Serving<'_>,
    talk: Talk,
) -> Result<Doors, Stop>
    ensures { IfOk result (λ doors. NamesPlace serving.now.place (string_bytes doors.line)) }
{
    let place = serving.place;
    let listener = listener_at(rt, place)?;
    let port = port_of(&listener, place)?;
    let http = http_door(rt, serving)?;
    let line = lines_for(alloc, place, port)?;
    let door = Door {
        listener,
        talk,
        slots: SLOTS,
    };
    Ok(Doors { door, http, line })
}

/// Listens at the place's port.
fn listener_at<R: Host + Net<Listener = TcpListener, Stream = TcpStream>>(
    rt: &R,
    place: Place,
) -> Result<TcpListener, Stop> {
    match TcpListener::bind(rt, (place.address, asked_port(place.port))) {
        Ok(listener) => Ok(listener),
        Err(error) => Err(Failure::Listen(place, error).stop()),
    }
}

/// Listens at the place's port for HTTP, if it has one.
fn http_door<R: Host + Net<Listener = TcpListener, Stream = TcpStream>>(
    rt: &R,
    serving: &Serving<'_>,
) -> Result<Option<Door>, Stop> {
    let Some(port) = serving.place.http else {
        return Ok(None);
    };
    let listener = listener_at(
        rt,
        Place {
            address: serving.place.address,
            port: Port::Named(port),
            http: None,
        },
    )?;
    Ok(Some(Door {
        listener,
        talk: Talk::Requests,
        slots: serving.http_seats,
    }))
}

/// The port that the system is asked for: at 0 it chooses one.
fn asked_port(port: Port) -> u16 {
    match port {
        Port::Any => 0,
        Port::Named(port) => port,
    }
}

/// The port that is listened on, where this place was asked for.
fn port_of(listener: &TcpListener, place: Place) -> Result<u16, Stop>
    ensures { IfOk result (IsPortFor place.port) }
{
    match place.port {
        Port::Any => chosen_port(listener, place),
        Port::Named(port) => Ok(port),
    }
}

/// The port that the system has chosen.
fn chosen_port(listener: &TcpListener, place: Place) -> Result<u16, Stop>
    ensures { IfOk result (λ port. (1 ≤ port) × (port ≤ 65535)) }
{
    let port = match listener.local_addr() {
        Ok(address) => address.port(),
        Err(error) => return Err(Failure::Listen(place, error).stop()),
    };
    if port == 0 {
        Err(Stop::Device(None))
    } else {
        Ok(port)
    }
}

/// The lines that say what is listened on.
fn lines_for(alloc: Global, place: Place, port: u16) -> Result<String, AllocError>
    ensures { IfOk result (λ lines. string_bytes lines ≡ place_lines place.address port place.http) }
{
    let mut lines = line_for(alloc, place.address, port, "\n")?;
    if let Some(http) = place.http {
        lines.push_str(&line_for(alloc, place.address, http, " over http\n")?)?;
    }
    Ok(lines)
}

/// The line for a port, with this end.
fn line_for(alloc: Global, address: IpAddr, port: u16, end: &str) -> Result<String, AllocError>
    ensures { IfOk result (λ line. string_bytes line ≡ listening_line address port end.now) }
{
    let address = address_text(alloc, address)?;
    format!(in alloc; "listening {address}:{port}{end}")
}

/// An address as it stands before a port.
fn address_text(alloc: Global, address: IpAddr) -> Result<String, AllocError>
    ensures { IfOk result (λ text. string_bytes text ≡ address_text address) }
{
    match address {
        IpAddr::V4(address) => format!(in alloc; "{address}"),
        IpAddr::V6(address) => format!(in alloc; "[{address}]"),
    }
}
