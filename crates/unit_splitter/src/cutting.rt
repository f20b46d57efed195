// The events of a translation unit cut into parts.
ghost use Rattle.std.specs.Prelude.{◌≡◌, ◌≤◌, ◌<◌, ◌+◌, ◌^◌, ◌&&◌, length};
ghost use Rattle.std.specs.List.{prefix_len};
ghost use Rattle.unit_splitter.specs.Growing.{first_length};
ghost use Rattle.unit_splitter.specs.Split.{is_change, is_included, depth_after};

use mac_base::Event;

/// Whether an event is a definition or an undefinition.
fn is_change(event: &Event) -> bool
    ensures { result ≡ is_change event.now }
{
    matches!(event, Event::Define { .. } | Event::Undef { .. })
}

/// How many changes the events begin with.
fn count_changes(events: &[Event]) -> usize
    ensures length { result ≡ prefix_len is_change events.now }
    ensures within { result ≤ length events.now }
{
    events.iter().take_while(|event| is_change(event)).count()
}

/// How many files are open after an event, where so many were before it.
pub fn depth_after(depth: usize, event: &Event) -> usize
    requires { depth + 1 < 2 ^ 64 }
    ensures { result ≡ depth_after depth event.now }
{
    match event {
        Event::Define { .. } | Event::Undef { .. } => depth,
        Event::Start { .. } => depth + 1,
        Event::End => depth.saturating_sub(1),
    }
}

/// Whether an event is a change inside an included file, where so many files are open.
fn may_join(depth: usize, event: &Event) -> bool
    ensures { result ≡ (is_included depth && is_change event.now) }
{
    depth >= 2 && is_change(event)
}

/// How many events the first part has, where so many files are open before it.
pub fn part_length(depth: usize, events: &[Event]) -> usize
    ensures length { result ≡ first_length depth events.now }
    ensures within { result ≤ length events.now }
{
    match events.split_first() {
        Some((event, more)) => if may_join(depth, event) {
            1 + count_changes(more)
        } else {
            1
        },
        None => 0,
    }
}
