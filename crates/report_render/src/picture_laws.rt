//! Laws of the picture.

ghost use Rattle.report_render.specs.Axis.{PlacesKeepOrder, PlacesAreWithin};

/// A later moment stands no further left, and no moment outside of the picture.
pub fn places_keep_order()
    ensures order { PlacesKeepOrder }
    ensures within { PlacesAreWithin }
{}
