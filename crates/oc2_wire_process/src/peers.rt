// Peers over the system.
ghost use Rattle.std.specs.Prelude.{◌≡◌, None, IfOk};
ghost use Rattle.cacao_site.specs.Counts.{next_count};

use crate::port_line::read_port;
use crate::socket::SocketLink;
use cacao_site::Failed;
use oc2_wire_link::Peers;
use std::alloc::{AllocError, Global};
use std::io;
use std::net::{Ipv4Addr, Net, OpenListener, TcpListener, TcpStream};
use std::process::{Child, Command, OpenProcess, Processes, Stdio};

/// The peers of a program over std's processes and sockets. They tell no calls, no port and no link.
///
/// Each error of std is a fault, and so is want of memory inside std's calls. Nothing listens at another address than
/// 127.0.0.1.
#[derive(Drop)]
pub struct ProcessPeers<'a, R: Net + Processes> {
    rt: &'a R,
    alloc: Global,
    // The path of the program that `start` starts.
    program: String,
    // The program that was started and is not waited for yet.
    child: Option<Child<R::Started>>,
    // What `bind` made and `accept` has not used yet.
    listener: Option<R::Listener>,
    faults: u64,
}

/// Ends a program, and waits for its end.
fn end<P: OpenProcess>(child: &mut Child<P>) {
    let _ = child.kill();
    let _ = child.wait();
}

/// Reads the port that a program says on its output, and connects to it.
fn connect<R: Net + Processes>(rt: &R, child: &mut Child<R::Started>) -> io::Result<R::Stream> {
    let Some(output) = &mut child.stdout else {
        return Err(io::Error::from(io::ErrorKind::BrokenPipe));
    };
    let port = read_port(output)?;
    TcpStream::connect(rt, (Ipv4Addr::LOCALHOST, port))
}

impl<'a, R: Net + Processes> ProcessPeers<'a, R> {
    /// The peers of a program that is started by this path. Nothing is started and nothing listens.
    pub fn new(rt: &'a R, alloc: Global, program: &str) -> Result<ProcessPeers<'a, R>, AllocError>
        ensures calls { IfOk result (λ peers. (⟦<ProcessPeers<'a, R> as Peers>⟧.view peers).calls ≡ None) }
        ensures faults { IfOk result (λ peers. (⟦<ProcessPeers<'a, R> as Peers>⟧.view peers).faults ≡ 0) }
    {
        Ok(ProcessPeers {
            rt,
            alloc,
            program: String::from_str(alloc, program)?,
            child: None,
            listener: None,
            faults: 0,
        })
    }

    /// One call that failed.
    fn fail(&mut self) -> Failed
        ensures { self.new.faults ≡ next_count self.old.faults }
    {
        self.faults = self.faults.saturating_add(1);
        Failed
    }

    /// Starts the program, whose output is read. It has no input, and writes its errors where this program does.
    fn spawn(&self) -> io::Result<Child<R::Started>> {
        Command::new(self.alloc, self.program.as_str())?
            .arg("filters")?
            .stdin(Stdio::null())
            .stdout(Stdio::piped())
            .spawn(self.rt)
    }

    /// Starts the program and connects to it. Where that fails behind its start, it is ended and waited for, since it would
    /// wait for a peer forever. One that was started before has to be waited for first.
    fn start_program(&mut self) -> io::Result<R::Stream>
        ensures { self.new.faults ≡ self.old.faults }
    {
        if self.child.is_some() {
            return Err(io::Error::from(io::ErrorKind::AlreadyExists));
        }
        let mut child = self.spawn()?;
        match connect(self.rt, &mut child) {
            Ok(stream) => {
                self.child = Some(child);
                Ok(stream)
            }
            Err(error) => {
                end(&mut child);
                Err(error)
            }
        }
    }

    /// Listens at a port that the system picks.
    fn listen(&mut self) -> io::Result<u16>
        ensures { self.new.faults ≡ self.old.faults }
    {
        let listener = TcpListener::bind(self.rt, (Ipv4Addr::LOCALHOST, 0u16))?;
        let port = listener.local_addr()?.port();
        self.listener = Some(listener);
        Ok(port)
    }

    /// Waits for one peer. Nothing listens any more behind that.
    fn accept_one(&mut self) -> io::Result<R::Stream>
        ensures { self.new.faults ≡ self.old.faults }
    {
        let Some(listener) = self.listener.take() else {
            return Err(io::Error::from(io::ErrorKind::NotConnected));
        };
        let (stream, _) = listener.accept()?;
        Ok(stream)
    }

    /// Waits for the program, if one was started, whose output stays open up to its end.
    fn wait(&mut self) -> io::Result<()>
        ensures { self.new.faults ≡ self.old.faults }
    {
        let Some(mut child) = self.child.take() else {
            return Ok(());
        };
        child.wait()?;
        Ok(())
    }
}

impl<'a, R: Net + Processes> Peers for ProcessPeers<'a, R> {
    ghost use Rattle.std.specs.Prelude.{None};

    type Out = SocketLink<R::Stream>;

    ghost view = { λ peers. record { calls = None; faults = peers.faults; port = None; next = None; back = None } };

    fn start(&mut self) -> Result<SocketLink<R::Stream>, Failed> {
        match self.start_program() {
            Ok(stream) => Ok(SocketLink::new(stream)),
            Err(_) => Err(self.fail()),
        }
    }

    fn bind(&mut self) -> Result<u16, Failed> {
        match self.listen() {
            Ok(port) if port > 0 => Ok(port),
            _ => Err(self.fail()),
        }
    }

    fn accept(&mut self) -> Result<SocketLink<R::Stream>, Failed> {
        match self.accept_one() {
            Ok(stream) => Ok(SocketLink::new(stream)),
            Err(_) => Err(self.fail()),
        }
    }

    fn close(&mut self, link: SocketLink<R::Stream>) -> Result<(), Failed> {
        self.faults = self.faults.saturating_add(link.faults());
        drop(link);
        match self.wait() {
            Ok(()) => Ok(()),
            Err(_) => Err(self.fail()),
        }
    }
}
