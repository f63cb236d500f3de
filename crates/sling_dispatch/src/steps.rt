//! What the lines of a scenario do.
ghost use Rattle.std.specs.Prelude.{◌≡◌, ◌++◌, IfOk, OnOk, None, Some, codes};
ghost use Rattle.replay_text.specs.Transcript.{action_text};
ghost use Rattle.run_events.specs.declared.step.Step.TheVariants as model;
ghost use Rattle.sling_dispatch.specs.Fronts.{arming_of_task, step_of_task};
ghost use Rattle.sling_dispatch.specs.Runs as runs;

use any_config::Farm;
use connections::ConnectionId;
use cover_rules::Action;
use front::{Pick, Step};
use replay_text::{EventLine, NamedFlight};
use sp_base::{ByteBuf, HTTP_PORT, Mem};
use sp_outside::Way;
use std::alloc::Global;

/// The host that a farm's publisher is asked at, with its port where it isn't that of HTTP.
pub fn asked_host(alloc: Global, farm: &Farm) -> Mem<Vec<u8>>
    ensures { IfOk result (λ host. host.items ≡ runs.asked_publisher_host farm.now) }
{
    let mut host = Vec::new(alloc);
    host.extend_from_slice(farm.ask_host.text().as_bytes())?;
    if farm.ask_port != HTTP_PORT {
        let port = farm.ask_port.to_string(alloc)?;
        host.extend_from_slice(b":")?;
        host.extend_from_slice(port.as_bytes())?;
    }
    Ok(host)
}

/// What a line of a scenario asks for.
#[derive(Drop)]
pub enum Task {
    /// A step of the front.
    Step(Step),
    /// That this one of the disk's next calls fails.
    Fail(u64, Way),
    /// That this one of the disk's next calls fails, and every later one until a restart.
    Stop(u64, Way),
}

/// What a line of a scenario asks for, where this host is asked.
pub fn task_of(alloc: Global, host: &[u8], line: EventLine) -> Mem<Task>
    ensures step { IfOk result (λ task. step_of_task task ≡ runs.step_of host.now line) }
    ensures arming { IfOk result (λ task. arming_of_task task ≡ runs.arming_of line) }
{
    match line {
        EventLine::Direct(target) => Ok(Task::Step(Step::Direct(target))),
        EventLine::Open(c, peer) => Ok(Task::Step(Step::Opened(c, peer))),
        EventLine::Close(c) => Ok(Task::Step(Step::Gone(c))),
        EventLine::Bytes(c, bytes) => Ok(piece(c, bytes)),
        EventLine::Get(c, target) => Ok(piece(c, get_bytes(alloc, host, target.text())?)),
        EventLine::Post(c, target, form) => {
            let bytes = post_bytes(alloc, host, target.text(), form.bytes())?;
            Ok(piece(c, bytes))
        }
        EventLine::Flush(c, action, handle, only) => {
            let bytes = flush_bytes(alloc, host, action, handle.text(), only)?;
            Ok(piece(c, bytes))
        }
        EventLine::Render(flight) => Ok(Task::Step(Step::Render(pick_of(flight)))),
        EventLine::Deliver(flight) => Ok(Task::Step(Step::Deliver(pick_of(flight)))),
        EventLine::Lose(flight) => Ok(Task::Step(Step::Lose(pick_of(flight)))),
        EventLine::Purge => Ok(Task::Step(Step::Purge)),
        EventLine::Restart => Ok(Task::Step(Step::Restart)),
        EventLine::Fail(n, way) => Ok(Task::Fail(n, way)),
        EventLine::Stop(n, way) => Ok(Task::Stop(n, way)),
    }
}

// Bytes come on a connection.
fn piece(c: ConnectionId, bytes: ByteBuf) -> Task
    ensures step { step_of_task result ≡ Some (model.Piece c bytes) }
    ensures arming { arming_of_task result ≡ None }
{
    Task::Step(Step::Piece(c, bytes))
}

fn pick_of(flight: NamedFlight) -> Pick
    ensures { result ≡ runs.pick_of flight }
{
    match flight {
        NamedFlight::First => Pick::First,
        NamedFlight::Numbered(number) => Pick::Number(number),
    }
}

// A line of a head.
fn push_head_line(out: &mut Vec<u8>, name: &[u8], value: &[u8]) -> Mem<()>
    ensures { OnOk result (out.new.items ≡ out.old.items ++ runs.head_line (name.now ++ value.now)) }
{
    out.extend_from_slice(name)?;
    out.extend_from_slice(value)?;
    out.extend_from_slice(b"\r\n")?;
    Ok(())
}

// The line of a request, whose method stands before a blank.
fn push_request_line(out: &mut Vec<u8>, method: &[u8], target: &str) -> Mem<()>
    ensures { OnOk result (out.new.items ≡ out.old.items ++ runs.head_line (method.now ++ (target.now ++ codes " HTTP/1.1"))) }
{
    out.extend_from_slice(method)?;
    out.extend_from_slice(target.as_bytes())?;
    out.extend_from_slice(b" HTTP/1.1\r\n")?;
    Ok(())
}

// A GET of a target at a host.
fn get_bytes(alloc: Global, host: &[u8], target: &str) -> Mem<ByteBuf>
    ensures { IfOk result (λ bytes. bytes ≡ runs.get_bytes host.now target.now) }
{
    let mut bytes = Vec::new(alloc);
    push_request_line(&mut bytes, b"GET ", target)?;
    push_head_line(&mut bytes, b"Host: ", host)?;
    bytes.extend_from_slice(b"\r\n")?;
    Ok(ByteBuf::from(bytes))
}

// A POST of a form to a target at a host.
fn post_bytes(alloc: Global, host: &[u8], target: &str, form: &[u8]) -> Mem<ByteBuf>
    ensures { IfOk result (λ bytes. bytes ≡ runs.post_bytes host.now target.now form.now) }
{
    let length = form.len().to_string(alloc)?;
    let mut bytes = Vec::new(alloc);
    push_request_line(&mut bytes, b"POST ", target)?;
    push_head_line(&mut bytes, b"Host: ", host)?;
    bytes.extend_from_slice(b"Content-Type: application/x-www-form-urlencoded\r\n")?;
    push_head_line(&mut bytes, b"Content-Length: ", length.as_bytes())?;
    bytes.extend_from_slice(b"\r\n")?;
    bytes.extend_from_slice(form)?;
    Ok(ByteBuf::from(bytes))
}

fn action_name(action: Action) -> &'static [u8]
    ensures { result.now ≡ action_text action }
{
    match action {
        Action::Activate => b"Activate",
        Action::Deactivate => b"Deactivate",
        Action::Delete => b"Delete",
    }
}

// That the resource alone is meant, where it is.
fn push_scope(out: &mut Vec<u8>, only: bool) -> Mem<()>
    ensures { OnOk result (out.new.items ≡ out.old.items ++ runs.scope_line only) }
{
    if only {
        push_head_line(out, b"CQ-Action-Scope: ", b"ResourceOnly")?;
    }
    Ok(())
}

// A request for an invalidation at a host.
fn flush_bytes(alloc: Global, host: &[u8], action: Action, handle: &str, only: bool) -> Mem<ByteBuf>
    ensures { IfOk result (λ bytes. bytes ≡ runs.flush_bytes host.now action handle.now only) }
{
    let mut bytes = Vec::new(alloc);
    push_request_line(&mut bytes, b"POST ", "/dispatcher/invalidate.cache")?;
    push_head_line(&mut bytes, b"Host: ", host)?;
    push_head_line(&mut bytes, b"CQ-Action: ", action_name(action))?;
    push_head_line(&mut bytes, b"CQ-Handle: ", handle.as_bytes())?;
    push_scope(&mut bytes, only)?;
    push_head_line(&mut bytes, b"Content-Length: ", b"0")?;
    bytes.extend_from_slice(b"\r\n")?;
    Ok(ByteBuf::from(bytes))
}
