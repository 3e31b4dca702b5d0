//! What holds of images. The law is the contract of a function that does nothing.

ghost use Rattle.std.specs.Prelude.{◌≡◌};
ghost use Rattle.hr_base.specs.declared.name.ChunkName.{ChunkName};
ghost use Rattle.dir_files.specs.Images.{Image, IsImage, port_of_image, read_of};
ghost use Rattle.dir_files.specs.PortStates.{IsAtRest};

/// What a crash left, taken as a folder, is at rest: what is read of it is the image, and a further crash leaves just
/// that.
pub fn an_image_is_at_rest()
    ensures at_rest { (image : Image) → IsAtRest (port_of_image image) }
    ensures read { (image : Image) (name : ChunkName) → read_of (port_of_image image) name ≡ image name }
    ensures kept { (image : Image) → let port = port_of_image image in IsImage port.held port.gone image }
    ensures only { (image other : Image) → let port = port_of_image image in
        IsImage port.held port.gone other → (name : ChunkName) → other name ≡ image name }
{}
