//! Zircon's names of the calls.

use crate::text::Told;

/// What the call is here that has this name in Zircon, without `zx_`.
fn name_here(name: &str) -> Option<&'static str> {
    Some(match name {
        "channel_create" => "chan_create",
        "channel_read" | "channel_read_etc" => "chan_read_etc",
        "channel_write" | "channel_write_etc" => "chan_write",
        "event_create" => "event_create",
        "eventpair_create" => "eventpair_create",
        "handle_close" => "close",
        "handle_duplicate" => "dup",
        "handle_replace" => "replace",
        "job_create" => "job_create",
        "job_set_policy" => "job_set_policy",
        "object_get_info" => "handle_info, of version 2,",
        "object_signal" => "signal",
        "object_signal_peer" => "signal_peer",
        "object_wait_async" => "wait_async",
        "object_wait_many" => "wait_async for each and one port_wait",
        "object_wait_one" => "wait_one, or with a deadline of 0 wait_poll,",
        "port_cancel" => "port_cancel",
        "port_create" => "port_create",
        "port_queue" => "port_queue",
        "port_wait" => "port_wait, or with a deadline that has passed port_poll,",
        "process_create" => "process_create",
        "process_exit" => "process_exit",
        "process_start" => "process_start",
        "task_kill" => "task_kill",
        _ => return None,
    })
}

/// Adds what the call is here that has this name in Zircon, if one has it.
pub fn push_name_here(hint: &mut String, name: &[u8]) -> Told<bool> {
    let name = name.strip_prefix(b"zx_").unwrap_or(name);
    match name_here(str::from_utf8(name).unwrap_or("")) {
        Some(here) => tell!(hint; "; it is # here", here)?,
        None => return Ok(false),
    }
    Ok(true)
}
