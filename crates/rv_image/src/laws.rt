//! Laws over the definitions that are proved, as contracts of functions with an empty body.
ghost use Rattle.rv_image.specs.ImageLaws.{ImagesHaveNoFault, NoFaultIsAnImage, FilesDiffer};

/// The file of an image has no fault, a file without a fault is that of an image, and no two images have one file.
pub fn law_images()
    ensures images { ImagesHaveNoFault }
    ensures files { NoFaultIsAnImage }
    ensures differ { FilesDiffer }
{}
