//! The door of a server: its socket file, the users who may make it, and databases that can't have
//! a door.

use crate::files::{AMY, new_club};
use crate::runs::{ClubFile, expect_eq, new_path};
use clubdesk_files::{FileDoor, connect, may_make_door};
use desk_server::Door;
use std::fs;
use std::os::unix::fs::{FileTypeExt, MetadataExt, symlink};
use std::test::Fail;

fn socket_mode(rt: &HostRuntime, path: &str) -> Option<u32> {
    let found = fs::symlink_metadata(rt, path).ok()?;
    if found.file_type().is_socket() {
        Some(found.mode() & 0o777)
    } else {
        None
    }
}

const OWN: Option<u32> = Some(0o600);

fn expect_mode(club: &ClubFile<'_>, want: Option<u32>) -> Result<(), Fail> {
    let place = club.path_with("-office")?;
    expect_eq(club.rt, socket_mode(club.rt, place.as_str()), want)
}

fn expect_no_door(club: &ClubFile<'_>) -> Result<(), Fail> {
    expect_eq(club.rt, FileDoor::make(club.rt, club.path()).is_err(), true)
}

fn replace_door(club: &ClubFile<'_>, door: FileDoor<'_>) -> Result<(), Fail> {
    let again = FileDoor::make(club.rt, club.path())?;
    drop(door);
    expect_eq(club.rt, connect(club.rt, club.path()).is_ok(), true)?;
    expect_eq(club.rt, again.listener().is_some(), true)
}

// A new door replaces an earlier door. When the earlier door is dropped, the new door stays.
fn expect_door(club: &ClubFile<'_>) -> Result<(), Fail> {
    let door = FileDoor::make(club.rt, club.path())?;
    expect_mode(club, OWN)?;
    replace_door(club, door)?;
    expect_mode(club, None)
}

#[test]
fn a_door_beside_its_file(rt: HostRuntime) -> Result<(), Fail> {
    expect_door(&new_club(&rt, "door", &AMY)?)
}

fn expect_door_in(rt: &HostRuntime, folder: &str) -> Result<(), Fail> {
    let club = ClubFile::at(rt, format!(in rt.alloc(); "{folder}/club")?);
    club.play(&AMY)?;
    expect_door(&club)
}

// The folder's name alone has more bytes than a socket's address may have.
#[test]
fn a_door_in_a_folder_of_a_long_name(rt: HostRuntime) -> Result<(), Fail> {
    let path = new_path(&rt, "deep")?;
    let folder = format!(in rt.alloc(); "{path}-{:0>120}", 0)?;
    fs::create_dir(&rt, folder.as_str())?;
    expect_door_in(&rt, folder.as_str())?;
    Ok(fs::remove_dir(&rt, folder.as_str())?)
}

fn expect_no_door_over(club: &ClubFile<'_>, place: &str) -> Result<(), Fail> {
    fs::write(club.rt, place, b"x")?;
    expect_no_door(club)?;
    expect_eq(club.rt, fs::read(club.rt, place)?.len(), 1)?;
    fs::remove_file(club.rt, place)?;
    fs::create_dir(club.rt, place)?;
    expect_no_door(club)?;
    Ok(fs::remove_dir(club.rt, place)?)
}

#[test]
fn no_door_over_a_file(rt: HostRuntime) -> Result<(), Fail> {
    let club = new_club(&rt, "no-door", &AMY)?;
    expect_no_door_over(&club, club.path_with("-office")?.as_str())
}

fn move_door(club: &ClubFile<'_>) -> Result<(), Fail> {
    let place = club.path_with("-office")?;
    let elsewhere = club.path_with("-elsewhere")?;
    fs::rename(club.rt, place.as_str(), elsewhere.as_str())?;
    Ok(symlink(club.rt, elsewhere.as_str(), place.as_str())?)
}

// If a link has the door's name, no server makes a door there. A command fails, even if the link
// leads to a socket.
#[test]
fn no_door_over_a_link(rt: HostRuntime) -> Result<(), Fail> {
    let club = new_club(&rt, "linked-door", &AMY)?;
    let door = FileDoor::make(&rt, club.path())?;
    move_door(&club)?;
    expect_no_door(&club)?;
    club.play(&["add-member bob 5 => 5 storage failed"])?;
    club.remove_with("-office")?;
    drop(door);
    club.remove_with("-elsewhere")
}

/// The ids of a user, of the file's owner and of the command's user, and whether the first user may
/// make a door.
static MAKERS: [(u32, u32, u32, bool); 6] = [
    (1000, 1000, 2000, true),
    (2000, 1000, 2000, true),
    (0, 1000, 2000, true),
    (3000, 1000, 2000, false),
    (1, 0, 0, false),
    (4_294_967_295, 0, 0, false),
];

#[test]
fn who_may_make_a_door(rt: HostRuntime) -> Result<(), Fail> {
    for (user, owner, caller, want) in &MAKERS {
        expect_eq(&rt, may_make_door(*user, *owner, *caller), *want)?;
    }
    Ok(())
}

// The name is too long for a door, so the file has no server, and commands open the file.
#[test]
fn a_file_of_a_long_name(rt: HostRuntime) -> Result<(), Fail> {
    let name = format!(in rt.alloc(); "long-{:0>90}", 0)?;
    let club = new_club(&rt, name.as_str(), &AMY)?;
    club.play(&["serve --port 0 --count 1 => 5 storage failed"])?;
    club.play(&["add-member amy 5 => 1 refused: exists"])
}
