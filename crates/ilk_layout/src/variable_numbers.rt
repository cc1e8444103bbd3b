ghost use Rattle.std.specs.Prelude.{◌≡◌, ◌<◌, length};
ghost use Rattle.ilk_plant.specs.Plant.{point_count};
ghost use Rattle.ilk_layout.specs.Variables as variables;

use ilk_plant::Plant;

/// Returns the number of the variable for the mode of route `r`.
pub fn mode_var(plant: &Plant, r: u32) -> u32
    requires { r < length plant.now.routes }
    ensures { result ≡ variables.mode_var r }
{
    plant.prove_is_plant();
    3 * r
}

/// Returns the number of the variable that counts the path sections of route `r` seen occupied.
pub fn seen_count_var(plant: &Plant, r: u32) -> u32
    requires { r < length plant.now.routes }
    ensures { result ≡ variables.seen_count_var r }
{
    plant.prove_is_plant();
    3 * r + 1
}

/// Returns the number of the variable that counts the released path sections of route `r`.
pub fn released_count_var(plant: &Plant, r: u32) -> u32
    requires { r < length plant.now.routes }
    ensures { result ≡ variables.released_count_var r }
{
    plant.prove_is_plant();
    3 * r + 2
}

/// Returns the number of the variable for the detected position of point number `n`.
pub fn detected_var(plant: &Plant, n: u32) -> u32
    requires { n < point_count plant.now }
    ensures { result ≡ variables.detected_var plant.now n }
{
    plant.prove_is_plant();
    3 * plant.routes() + 2 * n
}

/// Returns the number of the variable for the commanded position of point number `n`.
pub fn commanded_var(plant: &Plant, n: u32) -> u32
    requires { n < point_count plant.now }
    ensures { result ≡ variables.commanded_var plant.now n }
{
    plant.prove_is_plant();
    3 * plant.routes() + 2 * n + 1
}

fn boards_begin(plant: &Plant) -> u32
    ensures { result ≡ variables.boards_begin plant.now }
{
    plant.prove_is_plant();
    3 * plant.routes() + 2 * plant.points()
}

/// Returns the number of the variable for the aspect of board `m`.
pub fn board_var(plant: &Plant, m: u32) -> u32
    requires { m < length plant.now.boards }
    ensures { result ≡ variables.board_var plant.now m }
{
    plant.prove_is_plant();
    boards_begin(plant) + m
}

/// Returns the number of the variable for the lock of section `x`.
pub fn lock_var(plant: &Plant, x: u32) -> u32
    requires { x < length plant.now.sections }
    ensures { result ≡ variables.lock_var plant.now x }
{
    plant.prove_is_plant();
    boards_begin(plant) + plant.boards() + x
}

/// Returns the number of the variable for the occupancy of section `x`.
pub fn occupancy_var(plant: &Plant, x: u32) -> u32
    requires { x < length plant.now.sections }
    ensures { result ≡ variables.occupancy_var plant.now x }
{
    plant.prove_is_plant();
    boards_begin(plant) + plant.boards() + plant.sections() + x
}
